//! Invariants of an IFMP engine (a port; RFC 1953), and what each rule of it keeps: the smallest steps of which every
//! rule is made, and what holds of a port whatever its peer says. Definitions and lemmas alone.
#![tactic(auto)]
