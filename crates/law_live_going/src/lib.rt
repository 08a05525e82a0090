//! The carries of a beat make each end of a link hear what the other said, in order (RFC 1953): where none of it is lost, and what
//! else comes to the two controllers sends nothing on the link's default channel and leaves both ports as their peers see
//! them. So they go as `law_live_rests` wants them.
//!
//! `specs/Law` has the statement of carries. What comes next on each way is `law_live_orders`'; the carries are taken one by one
//! (`proofs/Steps`, `proofs/Going`). `specs/Beats` has that of a whole beat: behind its ticks what the ports said in them is on its
//! way, and nothing else (`proofs/Ticks`), so that two ends which agree at rest do so again (`proofs/Settling`). There is no
//! code that runs.
#![tactic(auto)]

ghost use Rattle.law_live_going.specs.Law.{CarriesGo};
ghost use Rattle.law_live_going.specs.Beats.{TicksSayAll, BeatsSettle};

/// Carries go as they must for two ends to be at rest again. It does nothing, and its contract is the statement.
pub fn carries_go()
    ensures go { CarriesGo }
{}

/// Two ends that agree at rest do so behind a calm beat. It does nothing, and its contract is the statements.
pub fn beats_settle()
    ensures ticks { TicksSayAll }
    ensures beats { BeatsSettle }
{}
