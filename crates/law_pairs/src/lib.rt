//! The cross-connects of a network: which labels of a switch are joined, or may be, behind each event, by a branch, by
//! a request that stands at its controller, or by one on the way. Only a tick of its controller makes one more, and
//! then it is of a join that the controller enters.
//!
//! `specs/Events` has the definitions and the statement. What a controller asks and sends is `law_quiet_controllers`'; the
//! proof goes over the branches of its switch (`proofs/Branches`) and over each event of the network (`proofs/Acts`,
//! `proofs/Events`). There is no code that runs.
#![tactic(auto)]

ghost use Rattle.law_pairs.specs.Events.{EventsMakeNoPairs};

/// Each event that forges nothing, and lets nothing pass by chance, makes no pair of labels, but at a tick those of the joins
/// that it enters. It does nothing, and its contract is the statement.
pub fn events_make_no_pairs()
    ensures { EventsMakeNoPairs }
{}
