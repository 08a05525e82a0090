//! Formatting of script lines: of events for a journal; whole lines for tests and claims alone.
#![tactic(auto)]

mod events;
mod line;
mod parts;
mod routes;
mod topology_lines;

pub use events::write_event;
pub use line::write_line;
