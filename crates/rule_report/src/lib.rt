//! A checker of access lists (the judgement of a document's rules): a line for each rule, which
//! names the first earlier rule that covers it, and a last line with their counts, or with what is
//! refused.
#![tactic(auto)]

mod judgement;
mod lines;

pub use judgement::{Judgement, judge_rules};
