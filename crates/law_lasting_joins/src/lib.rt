//! Stability of cross-connects: a grant that is lent to an input stays lent to it while the switch is met, but where an
//! answer releases the input.
#![tactic(auto)]
