//! What a line says.

use crate::event::ConsoleEvent;

/// A statement of a console's input: what a line says. The language is this project's own.
#[derive(Clone, Copy, Debug, PartialEq, Eq)]
pub enum ConsoleLine {
    /// Nothing.
    Blank,
    /// The switch has ports 0 to so many, 1 to 8.
    Ports(u8),
    /// One event.
    Event(ConsoleEvent),
    /// So many rounds, 1 to 100,000, each a carry from the console and then one from the switch.
    Run(u32),
}
