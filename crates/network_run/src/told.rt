//! A run that is told.

use lab_io::ReportWriter;

/// An observer with its writer: who tells a run, and the writer of what is told.
#[derive(Drop)]
pub struct Told<T> {
    /// Who tells it.
    pub teller: T,
    /// The writer of the report.
    pub writer: ReportWriter,
}
