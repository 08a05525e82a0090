//! Tests of the parts of a controller, by their public calls.
#![tactic(auto)]

#[cfg(test)]
mod control_link_tests;
#[cfg(test)]
mod grant_table_tests;
#[cfg(test)]
mod reclaimed_tests;
#[cfg(test)]
mod redirect_state_tests;
#[cfg(test)]
mod request_book_tests;
#[cfg(test)]
mod values;
