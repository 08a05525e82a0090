//! How a flow comes to be bound to a label between the two ends of a link (RFC 1953): packets of it make one end take a label
//! and ask for its branch; once this is made, the label is offered, and a REDIRECT says so; the other end that hears it holds
//! a grant, and asks for the branch of that. Meanwhile what the ends agree on (`law_live_links`) holds but for labels that
//! are new; and both agree at rest again once nothing is on its way and no branch of a label is being made.
//!
//! `specs/Law` has the statements, of the two ports alone: of each rule by itself, in whatever order they come, and of the
//! whole way of one flow. There is no code that runs.
#![tactic(auto)]

ghost use Rattle.law_live_bindings.specs.Law.{AgreedEndsBind, BindingsAreAgreed, LikePortsBind, CountingKeepsBinding, OffersKeepBinding, HearingKeepsBinding, FlowsAreBound};

/// Two ends of a link that agree do so again once new labels are bound. It does nothing, and its contract is the statements.
pub fn bindings_are_agreed()
    ensures agreed { AgreedEndsBind }
    ensures rest { BindingsAreAgreed }
    ensures alike { LikePortsBind }
    ensures counting { CountingKeepsBinding }
    ensures offers { OffersKeepBinding }
    ensures hearing { HearingKeepsBinding }
    ensures flows { FlowsAreBound }
{}
