//! Access lists for flows (flow rules): which flows a rule matches, what a list of rules decides,
//! which rule covers another, and the text of a rule. Definitions, in `specs/`; there is no code
//! that runs. The language of rules is this project's own; type 1 and type 2 are the flow types of
//! RFC 1953.
#![tactic(auto)]

mod refusal;
mod rule;

pub use refusal::RuleRefusal;
pub use rule::{Decision, Ports, Protocol, Rule};
