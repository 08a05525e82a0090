//! A flow that lasts gets one label (RFC 1953; the policy of Newman, Minshall and Lyon): of a port that serves it by none,
//! has counted none of its packets and has a label to spare, as many packets as its policy asks for make the lowest
//! spare label be taken and its branch be asked for, once, however many come; fewer make it count them and ask for
//! nothing.
//!
//! `specs/Law` has the statement. Each packet is one more among the last ticks (`proofs/Counted`); a label that is
//! wired for the flow is found by it, so that no second one is taken (`proofs/Asking`). There is no code that runs.
#![tactic(auto)]

ghost use Rattle.law_live_counts.specs.Law.{FlowsAskOnce};

/// As many packets of a flow as the policy asks for make a port ask for one label. It does nothing, and its contract is
/// the statement.
pub fn flows_ask_once()
    ensures once { FlowsAskOnce }
{}
