//! Tests of lines and octets as they are read and written, and of tasks that take lines: one that writes each
//! line again, the audit of a trace, and a console's session.
#![tactic(auto)]

#[cfg(test)]
mod audit_run_tests;
#[cfg(test)]
mod console_run_tests;
#[cfg(test)]
mod echo;
#[cfg(test)]
mod lab_io_tests;
#[cfg(test)]
mod line_by_line_tests;
#[cfg(test)]
mod shared;
