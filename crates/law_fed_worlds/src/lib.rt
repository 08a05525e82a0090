//! The premise of the law of broken frames (`law_causes`) on each world of a run, in terms of the requests on their way to
//! the switches and of branches from one label to another (`IsFedWorld`, in `specs/Feeding.antt`): all else of it comes
//! from the shapes that switches keep (`law_branch_shapes`).
//!
//! Definitions and laws; no code runs.
#![tactic(auto)]

ghost use Rattle.law_fed_worlds.specs.Feeding.{AskedAreJoined, CausesInRuns, FedInRuns, JoinsLeadOnce};

/// Each list of cells is fed once in such worlds, and so each frame that is broken stands beside its cause. Once a switch
/// is met its joins lead each to a label of its own, and what stands at a desk and leads one label to another is of a
/// join. It does nothing, and its contract is the statement.
pub fn worlds_are_fed()
    ensures fed { FedInRuns }
    ensures causes { CausesInRuns }
    ensures joins { JoinsLeadOnce }
    ensures asked { AskedAreJoined }
{}
