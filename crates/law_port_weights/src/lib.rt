//! The ranking function over the rules of a port: what each adds to the measure of `claims_model`, which is nothing, but
//! for what the message or the packet pays for that came. Definitions and laws alone: `specs/Works` weighs a port at
//! work, `specs/Law` has the statements. In the proofs a step is judged by what it costs (`proofs/Works`); a port that
//! is halted does nothing, so there no step is paid, and none pays.
#![tactic(auto)]

ghost use Rattle.law_port_weights.specs.Law.{AnswersAreFree, CountingIsPaid, GivingBackIsFree, HearingIsPaid, PartingIsFree, UseIsFree};

/// A message that a port hears costs at most what it weighs itself, a packet that it counts what a label that is wired
/// may cost, and its other rules nothing. It does nothing, and its contract is the statement.
pub fn rules_are_paid()
    ensures hears { HearingIsPaid }
    ensures counts { CountingIsPaid }
    ensures used { UseIsFree }
    ensures done { AnswersAreFree }
    ensures parted { PartingIsFree }
    ensures given_back { GivingBackIsFree }
{}
