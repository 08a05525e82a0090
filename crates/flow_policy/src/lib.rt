//! Access lists for flows (flow rules): their lines, which of them decides of a flow, which covers
//! another, and the flow classifier (the policy) that they are. What a rule is, and what its line
//! says, `rule_model` defines.
#![tactic(auto)]

mod apart;
mod law;
mod matching;
mod policy;
mod reader;
mod rule_set;
mod words;

pub use law::covering_is_of_all_flows;
pub use policy::RulePolicy;
pub use rule_model::{Decision, RuleRefusal};
pub use rule_set::{RULES, RuleSet};
