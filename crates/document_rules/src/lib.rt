//! A parser of a document's access list (its rules): its lines of that key, read up to the first
//! that is refused.
#![tactic(auto)]

mod reading;
mod rules_read;

pub use reading::read_rules;
pub use rules_read::RulesRead;
