//! The subcommands of the program, with what is true of the runs that they replay: from any source
//! to any sink, and from octets to octets in memory.
#![tactic(auto)]

mod command;
mod laws;
mod memory;

pub use command::run;
pub use memory::call;
