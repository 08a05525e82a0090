//! Processors of lines of text (tasks): they take the lines of an input one by one and write their
//! report as it grows.
#![tactic(auto)]

mod fault;
mod from_source;
mod line_run;
mod task;

pub use fault::LineFault;
pub use from_source::run_lines;
pub use line_run::ROOM;
pub use task::{Ending, LineTask, Step};
