//! Covering, told field by field, is covering of all flows.

ghost use Rattle.std.specs.Prelude.{◌≡◌, ◌<◌, ◌↔◌, ℕ, List, Ok, Some, length, true};
ghost use Rattle.ordered_lists.specs.Ordered.{Every};
ghost use Rattle.rule_model.specs.declared.rule.Rule.{Rule};
ghost use Rattle.rule_model.specs.Covering.{Covers, IsRule, IsLeastCover, covers, covered};
ghost use Rattle.rule_model.specs.Reading.{text_rule};

/// One rule covers another, told field by field, exactly where it matches each flow in range that the
/// other matches; so of rules that are read the least earlier one that covers a rule is the least that
/// matches all its flows. What is read of a line is such a rule. It does nothing, and its contract is the
/// statement.
pub fn covering_is_of_all_flows()
    ensures covers { (one other : Rule) → IsRule one → IsRule other → (covers one other ≡ true) ↔ Covers one other }
    ensures covered { (rules : List Rule) (n : ℕ) → Every IsRule rules → n < length rules → IsLeastCover rules n (covered rules n) }
    ensures read { (text : List ℕ) (rule : Rule) → text_rule text ≡ Ok (Some rule) → IsRule rule }
{}
