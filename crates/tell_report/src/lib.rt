//! An observer that writes the event log of a replay (its report): the lines of the records of each
//! event, and the last line.
#![tactic(auto)]

mod end_line;
mod lines;
mod report;

pub use end_line::last_line;
pub use report::{ReportLines, ReportParts, report_lines};
