//! Two ends of a link bind on along all carries of a beat (RFC 1953, RFC 1987), and agree at rest where nothing is on its way and
//! no label is being wired: each carry is elsewhere, leaves a port as its peer sees it, brings an end a message of the other, has it count
//! a packet, or brings it the switch's success of a label's branch, whose REDIRECT is said, or of a grant's.
//!
//! `specs/Law` has the statement of carries: what `law_live_bound` says of one is joined with what is on its way in the queues
//! (`law_live_orders`), carry by carry (`proofs/Steps`, `proofs/Going`). `specs/Beats` has that of a whole beat: from rest through its ticks and
//! its carries, and then through what is sent behind them (`proofs/Sending`, `proofs/Settling`). `specs/Saying` has that a packet which is
//! counted and a message which is heard are answered by none, as a binding carry asks (`proofs/Saying`). There is no code that runs.
#![tactic(auto)]

ghost use Rattle.law_live_binding_beats.specs.Law.{CarriesBindOn, StillEndsAgree};
ghost use Rattle.law_live_binding_beats.specs.Saying.{CountedPacketsAreUnanswered, HeardMessagesAreUnanswered};
ghost use Rattle.law_live_binding_beats.specs.Beats.{SendingsBindOn, BindingBeatsSettle};

pub use law_live_asking::runs_are_whole;

/// Two ends of a link bind on along carries. It does nothing, and its contract is the statements.
pub fn carries_bind_on()
    ensures on { CarriesBindOn }
    ensures rest { StillEndsAgree }
{}

/// Two ends that agree at rest bind on through a beat. It does nothing, and its contract is the statements.
pub fn binding_beats_settle()
    ensures sending { SendingsBindOn }
    ensures beats { BindingBeatsSettle }
{}

/// A packet that is counted, and a message by which a grant may be made, are answered by no message. It does nothing, and its
/// contract is the statements.
pub fn what_is_heard_says_none()
    ensures counted { CountedPacketsAreUnanswered }
    ensures heard { HeardMessagesAreUnanswered }
{}
