//! Tests of labelled frames, of IFMP and GSMP messages and of an adjacency, by their public calls.
#![tactic(auto)]

#[cfg(test)]
mod adjacency_table_tests;
#[cfg(test)]
mod flow_encaps_default_tests;
#[cfg(test)]
mod flow_encaps_labelled_tests;
#[cfg(test)]
mod gsmp_wire_tests;
#[cfg(test)]
mod ifmp_wire_tests;
