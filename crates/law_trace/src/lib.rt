//! What a monitor's verdict of yes on a trace means, in words of the trace alone. No code that
//! runs.
#![tactic(auto)]

mod yes;

pub use yes::yes_is_of_clean_traces;
