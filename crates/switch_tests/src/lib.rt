//! Tests of a switch and its parts, by their public calls.
#![tactic(auto)]

#[cfg(test)]
mod cell_pool_tests;
#[cfg(test)]
mod entries;
#[cfg(test)]
mod fabric_tests;
#[cfg(test)]
mod gsmp_switch_tests;
#[cfg(test)]
mod reassembly_tests;
