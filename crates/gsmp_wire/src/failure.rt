//! Why a switch refuses a request (RFC 1987).

ghost use Rattle.std.specs.Prelude.{◌≡◌};
ghost use Rattle.gsmp_wire.specs.Failures.{failure_code};

/// The Code of a GSMP failure answer (RFC 1987): why a switch refuses a request, in the order of
/// its tests. The causes are this project's own.
#[derive(Clone, Copy, Debug, PartialEq, Eq)]
pub enum Failure {
    /// A port that the request names isn't one of the switch.
    NoPort,
    /// The session isn't that of the input port, or of the port that is managed.
    BadSession,
    /// A port that the request names is down.
    PortDown,
    /// A channel that the request names is none that the switch can connect.
    OutOfRange,
    /// The input has a branch to another output.
    Busy,
    /// The input has no branch, or one that is neither the old nor the new output.
    NoConnection,
    /// The port has had its last session.
    SessionsSpent,
}

impl Failure {
    /// Its Code in a failure answer, 1 to 7.
    pub fn code(self) -> u8
        ensures { result ≡ failure_code self }
    {
        match self {
            Failure::NoPort => 1,
            Failure::BadSession => 2,
            Failure::PortDown => 3,
            Failure::OutOfRange => 4,
            Failure::Busy => 5,
            Failure::NoConnection => 6,
            Failure::SessionsSpent => 7,
        }
    }
}
