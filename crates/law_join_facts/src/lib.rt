//! Laws of the cross-connects of a controller (its joins): what keeps them, what ends all of them,
//! and the rules by which one comes and goes. Definitions and lemmas alone.
#![tactic(auto)]
