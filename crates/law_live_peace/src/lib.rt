//! A network in peace, put together (RFC 1953, RFC 1987): in a run before the first frame that was forged or passes its test by
//! chance, each tick and each carry of a beat is calm for the two ends of a link, so that they agree at rest behind it as they did
//! before.
//!
//! `specs/Law` has the statement of a carry: what other laws say of it is put together (`proofs/Carries`). `specs/Beats` has that of a
//! beat: what one end hears of the other is answered by nothing while both agree (`proofs/Hearing`, `proofs/Going`), nor is what is
//! for others (`proofs/Others`); the run gives the rest at each event (`proofs/Runs`), and the ways of the link stay open to the
//! end of the beat (`proofs/Beats`). There is no code that runs.
#![tactic(auto)]

ghost use Rattle.law_live_peace.specs.Law.{CarriesAreCalm};
ghost use Rattle.law_live_peace.specs.Beats.{BeatsAreCalm, PeaceIsKept};

pub use law_true_runs::runs_are_whole;

/// A carry of a run in peace is calm. It does nothing, and its contract is the statement.
pub fn carries_are_calm()
    ensures carries { CarriesAreCalm }
{}

/// A beat of a run in peace is calm, and two ends of a link that agree at rest do so behind it. It calls the law that it stands
/// on, and its contract is the statements.
pub fn peace_is_kept()
    ensures calm { BeatsAreCalm }
    ensures kept { PeaceIsKept }
{
    runs_are_whole();
}
