//! A parser of scripts as TOML documents: the lines of a document, or why it is refused as a whole.
//! What a document of TOML is, `toml` says; which of them hold a script, and its lines, is said
//! here.
#![tactic(auto)]

mod document;
mod fault;
mod lines;
mod table;

pub use document::read_document;
pub use fault::DocumentFault;
pub use lines::Lines;
pub use script_model::DocumentRefusal;
