//! The book of requests.

ghost use Rattle.std.specs.Prelude.{◌≡◌, ◌<◌, ◌≤◌, ◌==◌, [], length, filter, not, slice_get, true, false, IfOk, IfSome};
ghost use Rattle.std.specs.List.{list_any, remove};
ghost use Rattle.std.specs.Option.{option_map};
ghost use Rattle.gsmp_wire.specs.Range.{IsInRange};
ghost use Rattle.gsmp_wire.specs.declared.request.Request.TheVariants.{DeleteAll};
ghost use Rattle.branch_desk.specs.port_model.DeskAnswers.{answered, after_answer};
ghost use Rattle.branch_desk.specs.port_model.Desk.{asked, emptied, empty_desk, is_led_home, last_transaction, message_at, withdrawn};
ghost use Rattle.branch_desk.specs.port_model.Requests.{withdraws};
ghost use Rattle.branch_desk.specs.Requests.{AreApart, AreRising, has_function};
ghost use Rattle.controller_requests.specs.Answers.{told};

use crate::answer::{Answer, Redeemable};
use crate::tickets::Tickets;
use branch_desk::{Answered, Desk};
use gsmp_wire::{Message, Request};
use net_types::{End, OutOfMemory, PortNo};
use std::alloc::Global;
use std::marker::Model;

/// Whether a request is withdrawn by Delete All of this port.
fn goes_with(port: PortNo, request: &Request) -> bool
    ensures { result ≡ withdraws (DeleteAll port) request.now }
{
    match request {
        Request::AddBranch { input, .. }
        | Request::MoveBranch { input, .. }
        | Request::DeleteTree { input }
        | Request::VerifyTree { input } => input.port == port,
        Request::DeleteAll { port: deleted } => *deleted == port,
        Request::PortManagement { .. } | Request::AllPorts => false,
    }
}

/// The outstanding requests of a GSMP client (RFC 1987) with the ticket of each. It must be given
/// up by [`RequestBook::abandon`].
#[must_use]
#[derive(Debug)]
pub struct RequestBook {
    desk: Desk,
    tickets: Tickets,
}

impl Model for RequestBook {
    ghost use Rattle.branch_desk.specs.port_model.Desk as desk_model;
    ghost use Rattle.controller_requests.specs.Book.{IsBook};

    ghost Value = { desk_model.Desk };

    ghost view = { λ b. b.desk };

    ghost invariant = { λ b. IsBook b.desk b.tickets };
}

impl RequestBook {
    /// An empty book, with room for 4,096 requests. No other call takes memory.
    pub fn open(alloc: Global) -> Result<RequestBook, OutOfMemory>
        ensures { IfOk result (λ book. book ≡ empty_desk) }
    {
        let tickets = Tickets::open(alloc)?;
        match Desk::open(alloc) {
            Ok(desk) => Ok(RequestBook { desk, tickets }),
            Err(error) => {
                tickets.destroy_empty();
                Err(error)
            }
        }
    }

    /// Withdraws what the request withdraws, and asks it under the next number, which is the answer.
    pub fn ask(&mut self, request: Request) -> u32
        requires room { length self.old.standing < 4096 }
        requires number { self.old.next < last_transaction }
        requires function { has_function request ≡ true }
        ensures number { result ≡ self.old.next }
        ensures asked { self.new ≡ asked self.old request }
    {
        self.withdraw_for(request);
        let ticket = self.desk.ask_needed(request);
        let number = ticket.number();
        self.tickets.push(ticket);
        number
    }

    /// Withdraws the request on this input, if one stands.
    pub fn withdraw_input(&mut self, input: End)
        ensures { self.new ≡ withdrawn self.old input }
    {
        if let Some(number) = self.desk.on(input) {
            let place = self.tickets.place_of(number);
            self.withdraw_at(place);
        }
    }

    /// Withdraws the request at an index.
    fn withdraw_at(&mut self, place: usize)
        requires { place < length self.old.standing }
        ensures { self.new ≡ record self.old { standing = remove self.old.standing place } }
    {
        let ticket = self.tickets.take_out(place);
        self.desk.withdraw(ticket);
    }

    /// Withdraws what Delete All of this port withdraws.
    fn withdraw_port(&mut self, port: PortNo)
        ensures { self.new ≡ record self.old { standing = filter (λ s. not (withdraws (DeleteAll port) s.request)) self.old.standing } }
    {
        let mut place = self.tickets.len();
        while place > 0 {
            place -= 1;
            if goes_with(port, &self.tickets.request(place)) {
                self.withdraw_at(place);
            }
        }
    }

    /// Withdraws what a request withdraws.
    fn withdraw_for(&mut self, request: Request)
        ensures { self.new ≡ record self.old { standing = filter (λ s. not (withdraws request s.request)) self.old.standing } }
    {
        match request {
            Request::AddBranch { input, .. }
            | Request::MoveBranch { input, .. }
            | Request::DeleteTree { input }
            | Request::VerifyTree { input } => self.withdraw_input(input),
            Request::DeleteAll { port } => self.withdraw_port(port),
            Request::PortManagement { .. } | Request::AllPorts => {}
        }
    }

    /// Withdraws all that stands.
    pub fn empty(&mut self)
        ensures { self.new ≡ emptied self.old }
    {
        while let Some(ticket) = self.tickets.pop() {
            self.desk.withdraw(ticket);
        }
    }

    /// On meeting a switch: the next number is 1, and no session is known. Nothing may stand.
    pub fn begin(&mut self)
        requires { self.old.standing ≡ [] }
        ensures { self.new ≡ empty_desk }
    {
        self.desk.begin();
    }

    /// Takes a message of the switch. A success or a failure under the number of a standing request,
    /// of its type, ends that request; any other message is `Unknown` and changes nothing. What is
    /// done has its ticket, and must be redeemed.
    pub fn answer(&mut self, message: &Message) -> Answer
        ensures answer { result ≡ told (answered self.old message.now) }
        ensures after { self.new ≡ after_answer self.old (answered self.old message.now) }
    {
        match self.desk.answer(message) {
            Answered::Unknown => Answer::Unknown,
            Answered::Done(done) => {
                let ticket = self.tickets.take(done.number());
                Answer::Done(Redeemable::new(done, ticket))
            }
            Answered::Ports(ports, done) => {
                let ticket = self.tickets.take(done.number());
                Answer::Ports(ports, Redeemable::new(done, ticket))
            }
            Answered::Failed { number, code } => {
                let ticket = self.tickets.take(number);
                self.desk.withdraw(ticket);
                Answer::Failed { number, code }
            }
        }
    }

    /// The desk.
    pub fn desk(&self) -> &Desk
        ensures { result.now ≡ self.now }
    {
        &self.desk
    }

    /// Whether a request stands that leads this input to the control link, where `home` is its channel
    /// there.
    pub fn is_led_home(&self, input: End, home: End) -> bool
        ensures { result ≡ is_led_home self.now input home }
    {
        self.desk.is_led_home(input, home)
    }

    /// How many requests stand, 4,096 at most. They stand in order of their numbers, and none stands
    /// beside an earlier one that it withdraws.
    pub fn standing(&self) -> usize
        ensures len { result ≡ length self.now.standing }
        ensures most { result ≤ 4096 }
        ensures rising { AreRising self.now.standing }
        ensures apart { AreApart self.now.standing }
    {
        self.desk.standing()
    }

    /// The message of the request at this index in order of numbers, counted from 0; none exactly
    /// where the index is at or above [`RequestBook::standing`]. It is in range.
    pub fn message_at(&self, place: usize) -> Option<Message>
        ensures message { result ≡ option_map (message_at self.now) (slice_get self.now.standing place) }
        ensures range { IfSome result IsInRange }
    {
        self.desk.resend(place)
    }

    /// Gives the book up, with its tickets.
    pub fn abandon(mut self) {
        self.empty();
        let RequestBook { desk, tickets } = self;
        tickets.destroy_empty();
        desk.abandon();
    }
}
