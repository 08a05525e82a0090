//! Tests of the commands, by the call that runs them: worked scripts, networks, documents, drills, messages
//! and traces, and reads and writes that fail.
#![tactic(auto)]

#[cfg(test)]
mod command_tests;
#[cfg(test)]
mod fault_tests;
#[cfg(test)]
mod network_tests;
#[cfg(test)]
mod script_tests;
