//! Tests of commands as words, documents, rules, drills and what routing alone does, by their public calls.
#![tactic(auto)]

#[cfg(test)]
mod command_line_tests;
#[cfg(test)]
mod document_text_tests;
#[cfg(test)]
mod drill_script_tests;
#[cfg(test)]
mod ideal_fates_tests;
#[cfg(test)]
mod rule_tests;
