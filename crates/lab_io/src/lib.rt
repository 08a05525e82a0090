//! Readers and writers of octets, the edge of the program: sources and sinks, each with a count of
//! its faults; the two loops that move whole inputs and outputs over them; and what moves them as
//! they come, the lines of an input and a report.
#![tactic(auto)]

mod edge;
mod line_reader;
mod memory;
mod report_writer;
mod standard;
mod stop;
mod sure;
mod transfer;

pub use edge::{Failed, Sink, Source};
pub use line_reader::{LineReader, NextLine};
pub use memory::{MemSink, MemSource};
pub use report_writer::ReportWriter;
pub use standard::{StdSink, StdSource};
pub use stop::Stop;
pub use sure::{SureSink, SureSource};
pub use transfer::{InputFault, read_to_end, write_all};
