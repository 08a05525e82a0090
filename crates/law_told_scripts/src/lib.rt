//! Theorems on a script whose run is told, in `proofs/`: one without lines of events has no events, and what the tale
//! of reports tells of a script is its report.
#![tactic(auto)]
