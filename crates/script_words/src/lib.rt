//! A parser of the words of a script's lines: how each form of a word is read, and what a line says
//! by its words, with nodes by their names. No call takes memory.
#![tactic(auto)]

mod event_lines;
mod forms;
mod keyword;
mod places;
mod reader;
mod routes;
mod said;
mod topology_lines;

pub use event_lines::ROUNDS;
pub use reader::read_words;
pub use said::{Described, Said, Side};
pub use script_model::LineRefusal;
