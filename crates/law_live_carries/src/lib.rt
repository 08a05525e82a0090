//! What waits in a queue of a network comes: where the queue is empty in the end, each of its cells was taken from it, in
//! order, and so was each that was put there meanwhile; and where none was lost, an event carried it. `law_passing` says how
//! a queue changes, event by event; this says that something happens.
//!
//! `specs/Law` has the statements. A cell is meant by its place in the queue, so that of two that are alike each has an event
//! of its own. There is no code that runs.
#![tactic(auto)]

ghost use Rattle.law_live_carries.specs.Law.{CellsComeInOrder, CellsAreCarried, UnlostAreCarried, WhatIsPutIsCarried, QueuesHaveOneName, RunsCarryByName, EmptyQueuesAreEmpty};

/// What waits in a queue comes, in its order, where the queue is empty in the end. It does nothing, and its contract is the
/// statements.
pub fn cells_are_carried()
    ensures order { CellsComeInOrder }
    ensures waiting { CellsAreCarried }
    ensures unlost { UnlostAreCarried }
    ensures put { WhatIsPutIsCarried }
    ensures names { QueuesHaveOneName }
    ensures runs { RunsCarryByName }
    ensures empty { EmptyQueuesAreEmpty }
{}
