//! Frames come in the order in which they were sent, between the two controllers of a link (RFC 1953), whether or not its default
//! channels lead there: where one leads nowhere the cell that is carried is entered into the ledger, so an event that loses none of
//! these frames finds a way for each.
//!
//! `specs/Law` has the statements. As in `law_live_orders`, what an event puts into a queue of the way is what it took from the one
//! before (`proofs/Hops`), and the rest is lists (`proofs/Orders`); `proofs/Runs` has that what is asked of default channels holds in
//! a run, by the shapes of branches. There is no code that runs.
#![tactic(auto)]

ghost use Rattle.law_link_orders.specs.Law.{UnlostFramesComeInOrder, UnlostStretchesComeInOrder, RunsMayLead};

/// Frames of which none is lost come in the order in which they were sent. It does nothing, and its contract is the statements.
pub fn unlost_frames_come_in_order()
    ensures order { UnlostFramesComeInOrder }
    ensures stretches { UnlostStretchesComeInOrder }
{}

/// In a run default channels lead to the other end of the link, if anywhere. It does nothing, and its contract is the statement.
pub fn runs_may_lead()
    ensures lead { RunsMayLead }
{}
