//! Lemmas on association lists: lists whose elements have a number as their key, what is found in them, and what a
//! change leaves. Definitions and lemmas alone.
#![tactic(auto)]
