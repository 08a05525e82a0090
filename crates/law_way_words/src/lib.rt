//! Messages in transit: what stands on the way between two controllers behind an event of a network. There is no code
//! that runs.
#![tactic(auto)]
