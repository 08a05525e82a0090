//! What a message of the switch means to a book of requests.

ghost use Rattle.std.specs.Prelude.{◌≡◌};

use branch_desk::{BranchDone, Ports, Ticket, redeem};
use std::marker::Model;

/// A token of a success response (RFC 1987) with the ticket of its request: it shows that the
/// switch carried the request out. It must be spent by [`Redeemable::redeem`].
#[must_use]
#[derive(Debug)]
pub struct Redeemable {
    done: BranchDone,
    ticket: Ticket,
}

impl Model for Redeemable {
    ghost use Rattle.std.specs.Prelude.{◌≡◌};
    ghost use Rattle.branch_desk.specs.port_model.Desk.{Standing};

    ghost Value = { Standing };

    ghost view = { λ r. r.done };

    ghost invariant = { λ r. r.ticket ≡ r.done };
}

impl Redeemable {
    /// What is done, with its ticket.
    pub(crate) fn new(done: BranchDone, ticket: Ticket) -> Redeemable
        requires { ticket ≡ done }
        ensures { result ≡ done }
    {
        Redeemable { done, ticket }
    }

    /// That the request is done.
    pub fn done(&self) -> &BranchDone
        ensures { result.now ≡ self.now }
    {
        &self.done
    }

    /// Spends both.
    pub fn redeem(self) {
        let Redeemable { done, ticket } = self;
        redeem(done, ticket);
    }
}

/// The response to an outstanding request (RFC 1987): what a message of the switch means to a book
/// of requests. A request that is answered stands no longer.
#[derive(Debug)]
pub enum Answer {
    /// No standing request has its number and type, or it is no answer.
    Unknown,
    /// The request is done.
    Done(Redeemable),
    /// All Ports is done, and these are the ports.
    Ports(Ports, Redeemable),
    /// The request failed.
    Failed {
        /// Its transaction number.
        number: u32,
        /// The switch's code for the cause.
        code: u8,
    },
}
