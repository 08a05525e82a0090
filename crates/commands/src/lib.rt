//! The subcommands of the program: what each command makes of its input, from a source to a sink,
//! and the status that it gives.
#![tactic(auto)]

mod command;
mod ending;
mod fault;
mod lined;
mod networks;
mod sure;
mod task;
mod views;
mod whole;

pub use command::run;
pub use sure::run_surely;
