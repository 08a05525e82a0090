//! The trace of every script is good: an audit of its octets says yes, before the first frame that was forged or passed
//! its test by chance. `specs/Law` has the statements. `proofs/Scripts` says what lines make of a network, `Sayable`
//! and `Whole` that lines of a trace have their forms, `Audited` how an audit reads them, and `Octets` that they are
//! the octets of the trace. No code that runs.
#![tactic(auto)]

mod law;

pub use law::{scripts_have_good_traces, traces_are_audited};
