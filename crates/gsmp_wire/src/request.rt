//! What a controller asks of its switch.

use net_types::{End, PortNo};

/// A GSMP request message (RFC 1987) as plain data: what it asks of a switch, without the session,
/// the transaction and the numbers that an answer fills in.
#[derive(Clone, Copy, Debug, PartialEq, Eq)]
pub enum Request {
    /// Makes a branch.
    AddBranch {
        /// From here.
        input: End,
        /// To here.
        output: End,
    },
    /// Moves a branch.
    MoveBranch {
        /// The branch of this input.
        input: End,
        /// From this output.
        from: End,
        /// To this one.
        to: End,
    },
    /// Ends the branch of an input.
    DeleteTree {
        /// The input.
        input: End,
    },
    /// Asks where the branch of an input leads.
    VerifyTree {
        /// The input.
        input: End,
    },
    /// Ends the branches of all inputs of a port.
    DeleteAll {
        /// The port.
        port: PortNo,
    },
    /// Brings a port up or takes it down.
    PortManagement {
        /// The port.
        port: PortNo,
        /// [`BRING_UP`](crate::BRING_UP) or [`TAKE_DOWN`](crate::TAKE_DOWN).
        function: u8,
    },
    /// Asks for all ports.
    AllPorts,
}
