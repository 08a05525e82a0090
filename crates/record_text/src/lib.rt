//! Formatting of values, of event log entries (records) and of parse errors: addresses, prefixes,
//! channels, labels, marks, names of nodes, ports and queues; a record's line; the last line of a
//! report whose script is refused. Each call appends one text; where memory is wanting, what stood
//! there is still in front, and a front of the text may stand behind it. The reading of a record's
//! line serves tests and claims alone: each record that has a line in a report is written as that line
//! and read back from it, and octets that are no record's line are read as none.
#![tactic(auto)]

mod conditions;
mod forms;
mod kind;
mod names;
mod places;
mod read;
mod refused_line;
mod values;
mod words;
mod write;

pub use conditions::has_line;
pub use places::{write_end, write_label, write_name, write_place, write_port};
pub use read::read_record;
pub use refused_line::write_refused;
pub use values::{write_address, write_channel, write_mark, write_prefix};
pub use write::write_record;
