//! Lemmas on sorted lists and their like: lists of which every element has a property, and every two, in order, stand
//! in a relation. How such a list is changed in one stretch, and that its parts are such lists. A library of
//! definitions and lemmas; it has no code.
#![tactic(auto)]
