//! Rules in their order.

ghost use Rattle.std.specs.Prelude.{◌≡◌, ◌<◌, ◌≤◌, ◌↔◌, [], length, position, None, IfOk, IfSome};
ghost use Rattle.rule_model.specs.Covering.{CoversAt, IsLeastCover, TellsApart, covered, covers};
ghost use Rattle.rule_model.specs.Matching.{decided};
ghost use Rattle.rule_model.specs.Reading.{rule_says};
ghost use Rattle.flow_policy.specs.Taking.{Takes};

use crate::apart::apart;
use crate::matching::matches;
use crate::reader::read_rule;
use ipv4_packet::FlowId;
use net_types::OutOfMemory;
use rule_model::{Decision, Rule, RuleRefusal};
use std::alloc::Global;
use std::marker::Model;

/// The most rules that a set holds.
pub const RULES: usize = 256;

/// An access list (a set of rules): at most 256 rules, in the order of their lines, each by its
/// index from 0. This project's own.
#[derive(Debug, Drop)]
pub struct RuleSet {
    rules: Vec<Rule>,
}

impl Model for RuleSet {
    ghost use Rattle.std.specs.Prelude.{◌≤◌, List, length};
    ghost use Rattle.std.specs.Vec.{vec_capacity};
    ghost use Rattle.ordered_lists.specs.Ordered.{Every};
    ghost use Rattle.rule_model.specs.declared.rule.Rule.{Rule};
    ghost use Rattle.rule_model.specs.Covering.{IsRule};

    ghost Value = { List Rule };

    ghost view = { λ s. s.rules.items };

    ghost invariant = { λ s. record {
      few : length s.rules.items ≤ 256;
      room : 256 ≤ vec_capacity s.rules;
      rules : Every IsRule s.rules.items;
    } };
}

fn covers(one: &Rule, other: &Rule) -> bool
    ensures { result ≡ covers one.now other.now }
{
    apart(one, other).is_none()
}

/// The index of the first rule that covers another.
fn first_covering(rules: &[Rule], other: &Rule) -> Option<usize>
    ensures { result ≡ position (λ rule. covers rule other.now) rules.now }
{
    rules.iter().position(|rule| covers(rule, other))
}

impl RuleSet {
    /// No rule yet. Room for 256 is taken at once.
    pub fn open(alloc: Global) -> Result<RuleSet, OutOfMemory>
        ensures { IfOk result (λ rules. rules ≡ []) }
    {
        Ok(RuleSet {
            rules: Vec::with_capacity(alloc, RULES)?,
        })
    }

    /// How many rules there are.
    pub fn len(&self) -> usize
        ensures len { result ≡ length self.now }
        ensures few { result ≤ 256 }
    {
        self.rules.len()
    }

    /// Takes the next line of rules, which has no end, and tells whether it is a rule: `false` where it is
    /// blank. It takes no memory. It is refused by the first test that it fails, in the order of
    /// [`RuleRefusal`]: `TooManyRules` comes last, exactly where 256 rules are there. A refusal changes
    /// nothing.
    pub fn line(&mut self, line: &[u8]) -> Result<bool, RuleRefusal>
        ensures { Takes self.old (rule_says self.old line.now) result self.new }
    {
        let Some(rule) = read_rule(line)? else {
            return Ok(false);
        };
        if self.rules.len() >= RULES {
            return Err(RuleRefusal::TooManyRules);
        }
        self.rules.push_reserved(rule);
        Ok(true)
    }

    /// What the first rule that matches the flow decides; `None` where none matches.
    pub fn decide(&self, flow: &FlowId) -> Option<Decision>
        ensures { result ≡ decided self.now flow.now }
    {
        match self.rules.iter().find(|rule| matches(rule, flow)) {
            Some(rule) => Some(rule.decision),
            None => None,
        }
    }

    /// The least index before `n` whose rule covers that at `n`: it matches each flow that this one
    /// matches.
    pub fn covered(&self, n: usize) -> Option<usize>
        requires { n < length self.now }
        ensures covered { result ≡ covered self.now n }
        ensures flows { IsLeastCover self.now n result }
    {
        let rule = &self.rules[n];
        first_covering(&self.rules[..n], rule)
    }

    /// A flow that rule `n` matches and rule `m` doesn't; `None` exactly where rule `m` covers rule `n`.
    pub fn apart(&self, m: usize, n: usize) -> Option<FlowId>
        requires m_in { m < length self.now }
        requires n_in { n < length self.now }
        ensures covers { (result ≡ None) ↔ CoversAt self.now m n }
        ensures flow { IfSome result (TellsApart self.now m n) }
    {
        apart(&self.rules[m], &self.rules[n])
    }
}
