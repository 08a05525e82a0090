//! The policy that rules are.

ghost use Rattle.std.specs.Prelude.{◌≡◌};

use crate::rule_set::RuleSet;
use flow_classifier::Policy;
use ipv4_packet::FlowId;
use rule_model::Decision;

/// A flow classifier (Newman, Minshall and Lyon) by an access list, the policy of a document's
/// rules: it offers a flow a label where the first rule that matches it offers one, from its
/// packets on, and keeps the label for at most its idle ticks. Where no rule matches nothing is
/// offered, and nothing is kept.
#[derive(Clone, Copy, Debug)]
pub struct RulePolicy<'a> {
    /// The rules.
    pub rules: &'a RuleSet,
}

impl<'a> Policy for RulePolicy<'a> {
    ghost use Rattle.rule_model.specs.Matching.{rules_policy};

    ghost meaning = { λ p. rules_policy p.rules.now };

    fn offer(&self, flow: &FlowId, packets: u32) -> bool {
        match self.rules.decide(flow) {
            Some(Decision::Offer { after, .. }) => packets >= after,
            Some(Decision::Deny) | None => false,
        }
    }

    fn keep(&self, flow: &FlowId, idle: u32) -> bool {
        match self.rules.decide(flow) {
            Some(Decision::Offer { keep, .. }) => idle <= keep,
            Some(Decision::Deny) | None => false,
        }
    }
}
