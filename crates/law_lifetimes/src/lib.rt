//! Expiry of outgoing labels (RFC 1953, Lifetime): a grant has ended or is leaving when as many ticks of its port
//! reached its lifetime as it was set to, no frame is sent by it any more, and where it was lent its input is led back,
//! unless the node is reset in that tick. So it is of one controller, whatever cells come, and at each node of every
//! run.
//!
//! `claims_model` says how a lifetime is set and which ticks reach it; `specs/Aging` counts them, `specs/Law` has the
//! statements of a controller and `specs/Run` those of a run. The proof takes one tick at a time of what
//! a grant has left (`proofs/Ages` of a port, `proofs/Ticking` of a controller); no other rule gives a
//! grant more, but a REDIRECT that is accepted (`proofs/Grants` to `proofs/Events`). There is no code
//! that runs.
#![tactic(auto)]

ghost use Rattle.law_lifetimes.specs.Law.{IsSet, IsSetAlone, EndsByLifetime, SendsNoMore, IsLedBack, IsEndedByReset};
ghost use Rattle.law_lifetimes.specs.Run.{IsSetInRuns, EndsInRuns, SendsNoMoreInRuns, IsLedBackInRuns, IsEndedByResetInRuns};

/// That a grant ends by its lifetime, of one controller after every list of inputs, and at each node in
/// every run. It does nothing, and its contract is the statement.
pub fn grants_expire()
    ensures set { IsSet }
    ensures alone { IsSetAlone }
    ensures ends { EndsByLifetime }
    ensures silent { SendsNoMore }
    ensures led_back { IsLedBack }
    ensures reset { IsEndedByReset }
    ensures runs_set { IsSetInRuns }
    ensures runs_end { EndsInRuns }
    ensures runs_silent { SendsNoMoreInRuns }
    ensures runs_led_back { IsLedBackInRuns }
    ensures runs_reset { IsEndedByResetInRuns }
{}
