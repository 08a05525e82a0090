//! A parser of command-line arguments (words): the command whose words they are, or none. `clap`
//! parts them into a subcommand and its word.
#![tactic(auto)]

mod command;
mod grammar;
mod reading;
mod word;

pub use command::Command;
pub use reading::read_command;
pub use word::Word;
