//! A simulation of a scenario (the run of a script): of one that a source gives line by line, with what
//! is told of it written as it grows, its report in a replay; of a document in TOML, which is read as a
//! whole, and its rules, before the first line is taken; and of a drill, whose script is made line by line,
//! and of whose report the last line alone is written. The nodes go by a policy of the caller's choice
//! (`replay`, `tell`, `replay_lines`), or by the one that the script or the document's rules name
//! (`replay_script`, `tell_script`, `replay_document`, `replay_drill`).
#![tactic(auto)]

mod choice;
mod document;
mod document_lines;
mod drill;
mod drill_lines;
mod from_source;
mod named_script;
mod named_whole;
mod script_run;

pub use choice::NamedController;
pub use document::{refuse, replay_lines};
pub use from_source::{replay, tell};
pub use line_by_line::LineFault;
pub use named_script::{replay_script, tell_script};
pub use named_whole::{replay_document, replay_drill};
