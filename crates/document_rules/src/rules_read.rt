//! Rules with the numbers of their lines.

ghost use Rattle.std.specs.Prelude.{◌≡◌, ◌+◌, ◌<◌, ◌∷◌, ℕ, List, length, slice_index, None, IfOk, if◌then◌else◌};
ghost use Rattle.rule_model.specs.Lines.{no_rules, rules_from};
ghost use Rattle.script_model.specs.Documents.{rule_refused};

use flow_policy::{RuleRefusal, RuleSet};
use net_types::OutOfMemory;
use script_model::Refused;
use std::alloc::Global;
use std::marker::Model;

/// A parsed access list: the rules that were read, the number of the line of each, from 1, and the
/// line that is refused.
#[derive(Debug, Drop)]
pub struct RulesRead {
    rules: RuleSet,
    numbers: Vec<usize>,
    refused: Option<(usize, RuleRefusal)>,
}

impl Model for RulesRead {
    ghost use Rattle.std.specs.Prelude.{◌≡◌, length};
    ghost use Rattle.rule_model.specs.Lines.{RuleLines};

    ghost Value = { RuleLines };

    ghost view = { λ r. record { rules = r.rules; numbers = r.numbers.items; refused = r.refused } };

    ghost invariant = { λ r. length r.numbers.items ≡ length r.rules };
}

impl RulesRead {
    /// No rule is read yet.
    pub(crate) fn open(alloc: Global) -> Result<RulesRead, OutOfMemory>
        ensures { IfOk result (λ read. read ≡ no_rules) }
    {
        Ok(RulesRead {
            rules: RuleSet::open(alloc)?,
            numbers: Vec::new(alloc),
            refused: None,
        })
    }

    /// Takes the line with this number, and tells whether another one may follow.
    pub(crate) fn take(&mut self, number: usize, text: &[u8]) -> Result<bool, OutOfMemory>
        ensures { (rest : List (List ℕ)) → IfOk result (λ goes_on. rules_from self.old number (text.now ∷ rest) ≡ (if goes_on then rules_from self.new (number + 1) rest else self.new)) }
    {
        self.numbers.reserve(1)?;
        match self.rules.line(text) {
            Ok(true) => {
                self.numbers.push_reserved(number);
                Ok(true)
            }
            Ok(false) => Ok(true),
            Err(name) => {
                self.refused = Some((number, name));
                Ok(false)
            }
        }
    }

    /// The rules.
    pub fn rules(&self) -> &RuleSet
        ensures { result.now ≡ self.now.rules }
    {
        &self.rules
    }

    /// The number of the line of the rule at `place`, from 0.
    pub fn number(&self, place: usize) -> usize
        requires { place < length self.now.rules }
        ensures { result ≡ slice_index self.now.numbers place }
    {
        self.numbers[place]
    }

    /// The line that is refused, if one is.
    pub fn refused(&self) -> Option<Refused>
        ensures { result ≡ rule_refused self.now }
    {
        match self.refused {
            Some((number, name)) => Some(Refused::Rule { number, name }),
            None => None,
        }
    }
}
