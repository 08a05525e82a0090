//! Induction over the rules of a port or of a controller: what a few changes of one keep, each of its rules keeps. A
//! law that goes over all rules says of each smallest change alone that it keeps what the law is about. Definitions and
//! lemmas alone.
//!
//! `proofs/Ports` goes over the rules of a port, for any property of a port at work; `proofs/Controllers` over those of
//! a controller, for any property of a controller in a run, `proofs/Changes` over what changes of routes and messages of
//! the switch make of it, and `proofs/Cells` over what it makes of packets and cells. A relation of before and after is
//! such a property of what is after. There is no code that runs.
#![tactic(auto)]
