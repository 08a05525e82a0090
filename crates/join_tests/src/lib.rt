//! Tests of where an input is led straight on, by public calls.
#![tactic(auto)]

#[cfg(test)]
mod grants;
#[cfg(test)]
mod plan_tests;
