//! The command that has a trace audited: its lines are read from a source one by one up to the
//! first that is refused or shows that the trace isn't good, and the verdict goes to a sink.
#![tactic(auto)]

mod law;
mod names;
mod outcome;
mod run;
mod task;
mod text;

pub use law::accounts_are_audits;
pub use run::audit;
