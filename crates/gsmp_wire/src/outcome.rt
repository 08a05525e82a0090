//! Whether a message asks, or what came of what was asked (RFC 1987).

ghost use Rattle.std.specs.Prelude.{◌≡◌};
ghost use Rattle.gsmp_wire.specs.Outcomes.{code_in, result_in};

use crate::failure::Failure;

/// The Result of a request, in the third octet of each message but those of the adjacency (RFC 1987).
pub const REQUEST: u8 = 2;

/// The Result of a success answer.
pub const SUCCESS: u8 = 3;

/// The Result of a failure answer.
pub const FAILURE: u8 = 4;

/// The Result of a message that is written, with the Code that goes with it (RFC 1987, Message Format).
#[derive(Clone, Copy, Debug, PartialEq, Eq)]
pub enum Outcome {
    /// It is a request.
    Request,
    /// It answers a request that was carried out.
    Success,
    /// It answers a request that was refused, and why.
    Failure(Failure),
}

impl Outcome {
    /// Its Result, [`REQUEST`], [`SUCCESS`] or [`FAILURE`].
    pub fn result(self) -> u8
        ensures { result ≡ result_in self }
    {
        match self {
            Outcome::Request => REQUEST,
            Outcome::Success => SUCCESS,
            Outcome::Failure(_) => FAILURE,
        }
    }

    /// Its Code: the cause of a failure, 1 to 7, and 0 in the others.
    pub fn code(self) -> u8
        ensures { result ≡ code_in self }
    {
        match self {
            Outcome::Request | Outcome::Success => 0,
            Outcome::Failure(failure) => failure.code(),
        }
    }
}
