//! Tests of the adjacencies of IFMP and GSMP, by their public calls.
#![tactic(auto)]

#[cfg(test)]
mod gsmp_adjacency_tests;
#[cfg(test)]
mod ifmp_adjacency_tests;
