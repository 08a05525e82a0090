//! What can happen to a console and its switch.

use net_types::{End, PortNo};

/// A side of the control link (RFC 1987): the controller, here a console, or the switch.
#[derive(Clone, Copy, Debug, PartialEq, Eq)]
pub enum Side {
    /// The console, and the queue from it to the switch.
    Console,
    /// The switch, and the queue of its port 0, which leads to the console.
    Switch,
}

/// A transition of a controller and its switch (an event of a console's session). Each end that it
/// names has VPI 0 and a port 1 to 8. This project's own.
#[derive(Clone, Copy, Debug, PartialEq, Eq)]
pub enum ConsoleEvent {
    /// The console is told to make a branch.
    Add {
        /// From here.
        input: End,
        /// To here.
        output: End,
    },
    /// It is told to move a branch.
    Move {
        /// The branch of this input.
        input: End,
        /// From this output.
        from: End,
        /// To this one.
        to: End,
    },
    /// It is told to end the branch of an input.
    Delete {
        /// The input.
        input: End,
    },
    /// It is told to end the branches of all inputs of a port.
    Clear {
        /// The port.
        port: PortNo,
    },
    /// It is told to ask where the branch of an input leads.
    Verify {
        /// The input.
        input: End,
    },
    /// The first cell of a side's queue is handed to the other side.
    Carry(Side),
    /// The first cell of a side's queue is lost.
    Lose(Side),
    /// A tick of a side.
    Tick(Side),
    /// The console starts again.
    Restart,
}
