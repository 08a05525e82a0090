//! The desk.

ghost use Rattle.std.specs.Prelude.{◌≡◌, ◌<◌, ◌≤◌, ◌==◌, ◌+◌, ◌↔◌, [], length, slice_get, false, true, None, IsErr, IfOk, IfSome, OnOk, OnErr, Some, is_some, List, Contains, find};
ghost use Rattle.std.specs.Option.{option_map, option_and_then};
ghost use Rattle.std.specs.List.{list_any};
ghost use Rattle.gsmp_wire.specs.Range.{IsInRange};
ghost use Rattle.port_model.specs.DeskAnswers.{answered, after_answer, without_request};
ghost use Rattle.port_model.specs.Desk.{Standing, all_on, asked, empty_desk, is_led_home, last_transaction, message_at, on_input};
ghost use Rattle.port_model.specs.Messages.{is_up};
ghost use Rattle.port_model.specs.Requests.{request_input, is_delete_all, is_on, withdraws};
ghost use Rattle.branch_desk.specs.Answers.{IsDoneBy, done_of, told};
ghost use Rattle.branch_desk.specs.Requests.{AreApart, AreRising, deleted_of, has_function};
ghost use Rattle.branch_desk.specs.Later.{Call, after_calls, stands_under};

use crate::answered::{Answered, Ports, copied};
use crate::entry::Entry;
use crate::message::{is_up, message_of};
use crate::requests::Requests;
use crate::ticket::{BranchDone, Ticket};
use gsmp_wire::{FAILURE, Message, PortRows, Request, SUCCESS};
use net_types::{End, OutOfMemory, PortNo};
use std::alloc::Global;
use std::marker::Model;

/// Where so many requests stand, only needed ones are asked. It is this project's own limit.
pub const MOST_ASKED: usize = 1024;

/// A queue-full error: a request isn't asked, since at least 1,024 are outstanding. The limit is
/// this project's own.
#[derive(Clone, Copy, Debug, PartialEq, Eq)]
pub struct DeskFull;

/// The outstanding requests of a GSMP client (its desk; RFC 1987, Transaction Identifier): those
/// that it asked of one switch, each from its asking until it is answered or withdrawn. It must be
/// given up by [`Desk::abandon`].
#[must_use]
#[derive(Debug)]
pub struct Desk {
    /// The next transaction number.
    next: u32,
    requests: Requests,
    /// The records of the last answer to All Ports.
    rows: PortRows,
}

impl Model for Desk {
    ghost use Rattle.port_model.specs.Desk as desk;
    ghost use Rattle.std.specs.Prelude.{◌<◌, All};

    ghost Value = { desk.Desk };

    ghost view = { λ d. record { next = d.next; standing = d.requests; rows = d.rows } };

    ghost invariant = { λ d. All (λ (s : desk.Standing). s.number < d.next) d.requests };
}

impl Desk {
    /// An empty desk, with room for 4,096 requests. No other call takes memory.
    pub fn open(alloc: Global) -> Result<Desk, OutOfMemory>
        ensures { IfOk result (λ desk. desk ≡ empty_desk) }
    {
        Ok(Desk {
            next: 1,
            requests: Requests::open(alloc)?,
            rows: PortRows::new(),
        })
    }

    /// Asks a request under the next number, where no request stands that it would withdraw. That
    /// number is below 4,294,967,295, and the function of a Port Management 1 or 2. `DeskFull` comes
    /// exactly where at least 1,024 requests stand, and then nothing changes.
    pub fn ask(&mut self, request: Request) -> Result<Ticket, DeskFull>
        requires free { list_any (λ s. withdraws request s.request) self.old.standing ≡ false }
        requires number { self.old.next < last_transaction }
        requires function { has_function request ≡ true }
        ensures full { IsErr result ↔ (1024 ≤ length self.old.standing) }
        ensures ticket { IfOk result (λ t. t ≡ record { number = self.old.next; request = request }) }
        ensures asked { OnOk result (self.new ≡ asked self.old request) }
        ensures err { OnErr result (self.new ≡ self.old) }
    {
        if self.requests.len() >= MOST_ASKED {
            return Err(DeskFull);
        }
        Ok(self.ask_needed(request))
    }

    /// Asks a request as [`Desk::ask`] does, where fewer than 4,096 stand.
    pub fn ask_needed(&mut self, request: Request) -> Ticket
        requires free { list_any (λ s. withdraws request s.request) self.old.standing ≡ false }
        requires number { self.old.next < last_transaction }
        requires function { has_function request ≡ true }
        requires room { length self.old.standing < 4096 }
        ensures ticket { result ≡ record { number = self.old.next; request = request } }
        ensures asked { self.new ≡ asked self.old request }
    {
        let entry = Entry::new(self.next, request);
        self.requests.push(entry);
        self.next += 1;
        Ticket::new(entry)
    }

    /// Withdraws a request: it stands no longer. Where it failed, it stood no longer before, and
    /// nothing changes.
    pub fn withdraw(&mut self, ticket: Ticket)
        ensures without { self.new ≡ without_request self.old ticket }
        ensures for_good { ticket.number < self.old.next → (calls : List Call) → stands_under ticket.number (after_calls self.new calls) ≡ false }
    {
        self.requests.remove(ticket.number());
        ticket.spend();
    }

    /// Takes a message of the switch. A success or a failure under the number of a standing request,
    /// of its type, ends that request; any other message is `Unknown` and changes nothing. A success
    /// of All Ports tells the sessions that later messages have.
    pub fn answer(&mut self, response: &Message) -> Answered
        ensures answer { result ≡ told (answered self.old response.now) }
        ensures after { self.new ≡ after_answer self.old (answered self.old response.now) }
        ensures done { (s : Standing) → (done_of result ≡ Some s) ↔ (Contains self.old.standing s × IsDoneBy response.now s) }
    {
        let Some(head) = response.head() else {
            return Answered::Unknown;
        };
        let Some(entry) = self.requests.answered_by(response, head.number) else {
            return Answered::Unknown;
        };
        match head.result {
            SUCCESS => {
                self.requests.remove(entry.number());
                let done = BranchDone::new(entry);
                match response {
                    Message::AllPorts { rows, .. } => {
                        self.rows = copied(rows);
                        Answered::Ports(Ports::new(copied(rows)), done)
                    }
                    _ => Answered::Done(done),
                }
            }
            FAILURE => {
                self.requests.remove(entry.number());
                Answered::Failed {
                    number: entry.number(),
                    code: head.code,
                }
            }
            _ => Answered::Unknown,
        }
    }

    /// The message of the request at this index in order of numbers, counted from 0; none exactly
    /// where the index is at or above [`Desk::standing`]. It is in range: no receiver refuses its octets.
    pub fn resend(&self, place: usize) -> Option<Message>
        ensures message { result ≡ option_map (message_at self.now) (slice_get self.now.standing place) }
        ensures range { IfSome result IsInRange }
    {
        let entry = self.requests.at(place)?;
        Some(message_of(&self.rows, entry.number(), &entry.request()))
    }

    /// The number of the next request, 4,294,967,295 at most.
    pub fn next_number(&self) -> u32
        ensures { result ≡ self.now.next }
    {
        self.next
    }

    /// How many requests stand, 4,096 at most. They stand in order of their numbers, and none stands
    /// beside an earlier one that it withdraws.
    pub fn standing(&self) -> usize
        ensures len { result ≡ length self.now.standing }
        ensures most { result ≤ 4096 }
        ensures rising { AreRising self.now.standing }
        ensures apart { AreApart self.now.standing }
    {
        self.requests.len()
    }

    /// The input of the request at this index in order of numbers, counted from 0; none where it is on
    /// no input, or where the index is at or above [`Desk::standing`].
    pub fn input_at(&self, place: usize) -> Option<End>
        ensures { result ≡ option_and_then (λ s. request_input s.request) (slice_get self.now.standing place) }
    {
        self.requests.at(place)?.input()
    }

    /// The number of the request on this input; none exactly where none stands. At most one does.
    pub fn on(&self, input: End) -> Option<u32>
        ensures { result ≡ option_map (λ s. s.number) (find (λ s. is_on input s.request) self.now.standing) }
    {
        match self.requests.on(input) {
            Some(entry) => Some(entry.number()),
            None => None,
        }
    }

    /// Whether a request on this input stands.
    #[tactic(auto, using(crate::proofs::Apart::found_any))]
    pub fn on_input(&self, input: End) -> bool
        ensures { result ≡ on_input self.now input }
    {
        self.requests.on(input).is_some()
    }

    /// The number of the Delete All of this port; none exactly where none stands. At most one does.
    pub fn delete_all_on(&self, port: PortNo) -> Option<u32>
        ensures { result ≡ option_map (λ s. s.number) (find (λ s. is_delete_all port s.request) self.now.standing) }
    {
        self.requests.all_on(port)
    }

    /// Whether a Delete All of this port stands.
    #[tactic(auto, using(crate::proofs::Apart::found_any_mapped))]
    pub fn all_on(&self, port: PortNo) -> bool
        ensures { result ≡ all_on self.now port }
    {
        self.requests.all_on(port).is_some()
    }

    /// Whether a Delete All of some port stands.
    pub fn is_deleting(&self) -> bool
        ensures { result ≡ list_any (λ s. is_some (deleted_of s.request)) self.now.standing }
    {
        self.requests.is_deleting()
    }

    /// Whether the last answer to All Ports calls this port up; not where none tells of it.
    pub fn is_up(&self, port: PortNo) -> bool
        ensures { result ≡ is_up self.now.rows port }
    {
        is_up(&self.rows, port)
    }

    /// Whether a request stands that leads this input to the control link, where `home` is its channel
    /// there: a Move Branch to it, a Delete Tree, a Delete All of the port.
    pub fn is_led_home(&self, input: End, home: End) -> bool
        ensures { result ≡ is_led_home self.now input home }
    {
        self.requests.is_led_home(input, home)
    }

    /// On meeting a switch: the next number is 1, and no session is known. Nothing may stand.
    pub fn begin(&mut self)
        requires { self.old.standing ≡ [] }
        ensures { self.new ≡ empty_desk }
    {
        self.next = 1;
        self.rows = PortRows::new();
    }

    /// Gives the desk up.
    pub fn abandon(self) {
        let Desk {
            next: _,
            requests: _,
            rows: _,
        } = self;
    }
}
