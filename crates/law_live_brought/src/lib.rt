//! What a carry of a run brings two ends of a link that bind (RFC 1953, RFC 1987): where the control links of both nodes are calm, and
//! only branches and joins are asked, each carry is one by which both ends bind on.
//!
//! `specs/Law` has the statements of one controller and of one carry: a success of a branch or a join leaves a port as its peer sees it,
//! unless it is of a label that the port is wiring (`proofs/Doing`, `proofs/Successes`, `proofs/Telling`), whose REDIRECT is then said
//! (`proofs/Saying`, `proofs/Offers`). `specs/Carries` has that of a run: what comes at a controller is known by what was made under its
//! mark (`proofs/Made`, `proofs/Whole`), and each kind of frame does what binding ends allow (`proofs/Heard`, `proofs/Moment` to
//! `proofs/Brought`, `proofs/Carries`), and so it is along a stretch (`proofs/Stretches`). There is no code that runs.
#![tactic(auto)]

ghost use Rattle.law_live_brought.specs.Law.{SuccessesAreForOthers, CalmMessagesAreTold, OffersAreSaid};
ghost use Rattle.law_live_brought.specs.Carries.{CarriesBind, StretchesBind};

pub use law_live_binding_beats::runs_are_whole;

/// What the switch says to a controller one of whose ports binds. It does nothing, and its contract is the statements.
pub fn successes_are_told()
    ensures others { SuccessesAreForOthers }
    ensures calm { CalmMessagesAreTold }
    ensures offers { OffersAreSaid }
{}

/// In a run each carry is one by which two ends of a link bind on. It does nothing, and its contract is the statement.
pub fn carries_bind()
    ensures carries { CarriesBind }
{}

/// So are all carries of a stretch of a run. It calls the law that it stands on, and its contract is the statement.
pub fn stretches_bind()
    ensures bind { StretchesBind }
{
    runs_are_whole();
}
