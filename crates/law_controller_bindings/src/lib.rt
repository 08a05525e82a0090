//! Invariants of the label bindings, the joins and the chains of one controller, whatever cells come: a label has the
//! flow of the latest record of its binding, a join leads that flow one hop further by the table held, and cells are
//! gathered for labels that are bound alone.
//!
//! `specs/Bindings` has the definitions and the statements, and `law_controller` what they rest on. The
//! proof goes rule by rule, over what holds also in the midst of an event: `proofs/Tied`, with what a
//! port at work has still to note and to cut. There is no code that runs.
#![tactic(auto)]

ghost use Rattle.law_controller_bindings.specs.Bindings.{Always, HasBoundLabels, HasLedJoins, GathersForBound, JournalsGrow, NotesOwn};

/// What holds of the labels, the joins and the chains of one controller after every list of inputs from
/// an opening with at most 8 ports, by the records that it noted in them, whatever others note in
/// between; and that these records are of its own node alone. It does nothing, and its contract is the
/// statement.
pub fn labels_are_bound()
    ensures labels { Always HasBoundLabels }
    ensures joins { Always HasLedJoins }
    ensures chains { Always GathersForBound }
    ensures grows { JournalsGrow }
    ensures own { NotesOwn }
{}
