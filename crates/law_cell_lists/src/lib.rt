//! Broken frames in lists of cells that lead to one another: each frame that breaks at the end of one stands beside a
//! cause.
//!
//! A list leads to another through a branch, or its cells are taken by a reassembly, or nobody takes them. What is
//! open at the back of a list begins at the front of the next, or is torn and has a cause in the ledger. Cells are
//! put in as whole frames, lost, taken and carried over; branches are made, changed and ended; each step keeps this,
//! over lists of any kind of name. It is proved for the lists alone (`proofs/Net.antt`) and for what is shown of them
//! where most lists have a home that yields to another (`proofs/Real.antt`).
//!
//! Definitions and lemmas; no code runs.
#![tactic(auto)]
