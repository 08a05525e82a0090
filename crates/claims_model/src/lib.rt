//! What is claimed of every run of a network, part by part, beside the headline of `world_model`, and of one
//! controller whatever comes to it: lifetimes of labels, the order of messages, routing tables and journeys,
//! and that carrying comes to an end. Definitions alone, in `specs/`.
#![tactic(auto)]
