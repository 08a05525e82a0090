//! The tickets of requests, in order of their numbers.

ghost use Rattle.std.specs.Prelude.{◌≡◌, ◌<◌, ◌==◌, ◌++◌, ◌∷◌, [], filter, find, length, not, slice_get, Some, None, true, IfOk, IfSome};
ghost use Rattle.std.specs.List.{list_any, remove};
ghost use Rattle.std.specs.Option.{option_map};
ghost use Rattle.branch_desk.specs.Requests.{AreRising};
ghost use Rattle.branch_desk.specs.ByEnd.{IsUnder};

use branch_desk::{MOST_REQUESTS, Ticket};
use gsmp_wire::Request;
use net_types::OutOfMemory;
use std::alloc::Global;
use std::marker::Model;

/// Tickets, with room for 4,096. They must be given up.
#[must_use]
#[derive(Debug)]
pub(crate) struct Tickets {
    tickets: Vec<Ticket>,
}

impl Model for Tickets {
    ghost use Rattle.std.specs.Prelude.{◌≤◌, List};
    ghost use Rattle.std.specs.Vec.{vec_capacity};
    ghost use Rattle.branch_desk.specs.port_model.Desk.{Standing};

    ghost Value = { List Standing };

    ghost view = { λ t. t.tickets.items };

    ghost invariant = { λ t. 4096 ≤ vec_capacity t.tickets };
}

/// The index of the ticket with this number, which is there.
fn place_of(tickets: &[Ticket], number: u32) -> usize
    requires rising { AreRising tickets.now }
    requires there { list_any (λ s. s.number == number) tickets.now ≡ true }
    ensures { IsUnder number tickets.now result }
{
    let found = tickets.binary_search_by(|ticket| ticket.number().cmp(&number));
    let Ok(place) = found else { unreachable!() };
    place
}

impl Tickets {
    /// No ticket.
    pub(crate) fn open(alloc: Global) -> Result<Tickets, OutOfMemory>
        ensures { IfOk result (λ tickets. tickets ≡ []) }
    {
        Ok(Tickets {
            tickets: Vec::with_capacity(alloc, MOST_REQUESTS)?,
        })
    }

    /// How many there are.
    pub(crate) fn len(&self) -> usize
        ensures { result ≡ length self.now }
    {
        self.tickets.len()
    }

    /// The request of the ticket at an index.
    pub(crate) fn request(&self, place: usize) -> Request
        requires { place < length self.now }
        ensures { option_map (λ s. s.request) (slice_get self.now place) ≡ Some result }
    {
        self.tickets[place].request()
    }

    /// The index of the ticket with this number, which is there.
    pub(crate) fn place_of(&self, number: u32) -> usize
        requires rising { AreRising self.now }
        requires there { list_any (λ s. s.number == number) self.now ≡ true }
        ensures { IsUnder number self.now result }
    {
        place_of(&self.tickets, number)
    }

    /// Puts one at the end.
    pub(crate) fn push(&mut self, ticket: Ticket)
        requires { length self.old < 4096 }
        ensures { self.new ≡ self.old ++ ticket ∷ [] }
    {
        let pushed = self.tickets.push(ticket);
        let Ok(()) = pushed else { unreachable!() };
    }

    /// Takes the one at an index out.
    pub(crate) fn take_out(&mut self, place: usize) -> Ticket
        requires { place < length self.old }
        ensures ticket { slice_get self.old place ≡ Some result }
        ensures rest { self.new ≡ remove self.old place }
    {
        self.tickets.remove(place)
    }

    /// Takes the one with this number out, which is there.
    pub(crate) fn take(&mut self, number: u32) -> Ticket
        requires rising { AreRising self.old }
        requires there { list_any (λ s. s.number == number) self.old ≡ true }
        ensures ticket { find (λ s. s.number == number) self.old ≡ Some result }
        ensures rest { self.new ≡ filter (λ s. not (s.number == number)) self.old }
    {
        let place = place_of(&self.tickets, number);
        self.tickets.remove(place)
    }

    /// Takes the last one out.
    pub(crate) fn pop(&mut self) -> Option<Ticket>
        ensures some { IfSome result (λ ticket. self.old ≡ self.new ++ ticket ∷ []) }
        ensures none { result ≡ None → (self.old ≡ []) × (self.new ≡ []) }
    {
        self.tickets.pop()
    }

    /// Gives the room up, of no ticket.
    pub(crate) fn destroy_empty(self)
        requires { self ≡ [] }
    {
        let Tickets { tickets } = self;
        tickets.destroy_empty();
    }
}
