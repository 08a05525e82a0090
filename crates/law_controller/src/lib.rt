//! Invariants of the outstanding requests and the joins of one controller, whatever cells come: what stands while its
//! switch is being met, beside a Delete All, and how many requests stand.
//!
//! `specs/Order` has the definitions, `specs/Law` the statements, and `law_controller_facts` what they rest
//! on. The proof goes rule by rule of a controller (`proofs/Performing` to `proofs/Events`), each over
//! what holds before it (`proofs/Holding`), and for what a port asks by the steps of its rules
//! (`proofs/Asked`). There is no code that runs.
#![tactic(auto)]

ghost use Rattle.law_controller.specs.Law.{Always, StandsInMeeting, DeletesOfClearing, StandsApart, HasLentGrants, MovesOfLent, AreMatched, HasHeldJoins, StandsFew};
ghost use Rattle.law_controller.specs.Actions.{AsksWhatCanBeDone};

/// What holds of the requests and the joins of one controller after every list of inputs from an
/// opening with at most 8 ports. It does nothing, and its contract is the statement.
pub fn controller_is_orderly()
    ensures meeting { Always StandsInMeeting }
    ensures clearing { Always DeletesOfClearing }
    ensures apart { Always StandsApart }
    ensures joined { Always HasLentGrants }
    ensures moves { Always MovesOfLent }
    ensures matched { Always AreMatched }
    ensures held { Always HasHeldJoins }
    ensures few { Always StandsFew }
    ensures actions { AsksWhatCanBeDone }
{}
