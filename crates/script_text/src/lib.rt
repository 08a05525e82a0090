//! A parser of scripts, line by line: each line is refused by the first test that it fails, or says
//! something behind the lines before it.
#![tactic(auto)]

mod description;
mod fault;
mod limits;
mod names;
mod reading;
mod state;
mod tables;

pub use fault::ReadFault;
pub use reading::{read_line, read_string};
pub use script_model::{Line, LineRefusal};
pub use state::ScriptState;
