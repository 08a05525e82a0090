//! Scenarios (scripts), their TOML form (documents) and event logs (reports) as functions of
//! octets: the language of scripts, which lines are refused and why, and the texts of records.
//! Definitions, in `specs/`, and laws of them; there is no code that runs.
#![tactic(auto)]

mod keyword;
mod law;
mod line;
mod refusal;

pub use keyword::Keyword;
pub use law::{lines_are_read_as_written, scripts_make_topologies};
pub use line::Line;
pub use refusal::{DocumentRefusal, LineRefusal, Refused};
