//! The command that plays a console's session with its switch: the lines are read from a source one by one
//! up to the first that is refused, each event is stepped as it comes, and the report goes to a sink.
#![tactic(auto)]

mod lab_run;
mod law;
mod refusal;
mod run;
mod task;
mod text;

pub use law::{accounts_are_sessions, answers_are_told, sessions_are_runs};
pub use run::console;
