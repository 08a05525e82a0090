//! What is handed out for a request, and for its answer.

ghost use Rattle.std.specs.Prelude.{◌≡◌};

use crate::entry::Entry;
use gsmp_wire::Request;
use std::marker::Model;

/// The handle of an outstanding request (a ticket), by its Transaction Identifier (RFC 1987). It
/// must be spent: where the request is done by [`redeem`], and else by [`crate::Desk::withdraw`].
#[must_use]
#[derive(Debug)]
pub struct Ticket {
    entry: Entry,
}

/// A token of a success response (RFC 1987): it shows that the switch carried a request out. Only
/// an answer makes it, and it must be spent by [`redeem`].
#[must_use]
#[derive(Debug)]
pub struct BranchDone {
    entry: Entry,
}

impl Model for Ticket {
    ghost use Rattle.port_model.specs.Desk.{Standing};

    ghost Value = { Standing };

    ghost view = { λ t. t.entry };
}

impl Model for BranchDone {
    ghost use Rattle.port_model.specs.Desk.{Standing};

    ghost Value = { Standing };

    ghost view = { λ d. d.entry };
}

impl Ticket {
    /// Handed out for a request that is asked.
    pub(crate) fn new(entry: Entry) -> Ticket
        ensures { result ≡ entry }
    {
        Ticket { entry }
    }

    /// The transaction number of the request.
    pub fn number(&self) -> u32
        ensures { result ≡ self.now.number }
    {
        self.entry.number()
    }

    /// The request.
    pub fn request(&self) -> Request
        ensures { result ≡ self.now.request }
    {
        self.entry.request()
    }

    /// Spends it.
    pub(crate) fn spend(self) {
        let Ticket { entry: _ } = self;
    }
}

impl BranchDone {
    /// Made of a request that a success answers.
    pub(crate) fn new(entry: Entry) -> BranchDone
        ensures { result ≡ entry }
    {
        BranchDone { entry }
    }

    /// The transaction number of the request.
    pub fn number(&self) -> u32
        ensures { result ≡ self.now.number }
    {
        self.entry.number()
    }

    /// The request that is done.
    pub fn request(&self) -> Request
        ensures { result ≡ self.now.request }
    {
        self.entry.request()
    }
}

/// Spends the ticket of a request, and that it is done.
pub fn redeem(done: BranchDone, ticket: Ticket)
    requires { done.number ≡ ticket.number }
{
    let BranchDone { entry: _ } = done;
    ticket.spend();
}
