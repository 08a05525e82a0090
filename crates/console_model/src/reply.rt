//! What a command was answered.

use net_types::End;

/// The response to a command (a reply): what the switch answered to what the console asked (RFC
/// 1987, Result and Code).
#[derive(Clone, Copy, Debug, PartialEq, Eq)]
pub enum Reply {
    /// It is done.
    Done,
    /// It failed.
    Failed {
        /// The switch's code for the cause, 1 to 7.
        code: u8,
    },
    /// The branch that it asked for leads here.
    At(End),
}
