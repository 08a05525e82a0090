//! How the reading of a script ended.

use script_model::Refused;

/// The outcome of parsing a script: how many of its lines were events, and what was refused. This
/// project's own.
#[derive(Clone, Copy, Debug, PartialEq, Eq)]
pub struct Ended {
    /// How many lines were events.
    pub event_lines: u32,
    /// What was refused, behind which nothing is read.
    pub refused: Option<Refused>,
}
