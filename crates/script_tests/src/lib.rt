//! Tests of the lines of scripts and of reports, read and written, by their public calls.
#![tactic(auto)]

#[cfg(test)]
mod line_text_tests;
#[cfg(test)]
mod record_text_tests;
#[cfg(test)]
mod refused_line_tests;
#[cfg(test)]
mod script_text_tests;
#[cfg(test)]
mod states;
