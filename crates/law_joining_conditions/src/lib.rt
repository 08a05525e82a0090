//! Preconditions of a controller's events, which its invariants give: what `controller_joining` asks of each of its calls
//! holds between events, whatever cells come, where enough numbers are left. So each event can come to a controller.
//!
//! `specs/Events` and `specs/Cells` have the statements. The proof goes over what `law_controller` and
//! `law_controller_conditions` prove of each rule, call by call: releases (`proofs/Releasing`), changes of
//! routes (`proofs/Changing`), joins that are tried (`proofs/Trying`), answers (`proofs/Answering`) and
//! ticks (`proofs/Ticking`), and that a rule of a port keeps what is lent (`proofs/Keeping`). There is no
//! code that runs.
#![tactic(auto)]

ghost use Rattle.law_joining_conditions.specs.Cells.{FramesCanBeTaken};
ghost use Rattle.law_joining_conditions.specs.Events.{ChangesCanCome, MessagesCanBeTold, NodeCanRestart, PortsCanCount, PortsCanHear, TicksCanGoBy};

/// What holds of one controller between events gives what the calls of a router that joins labels ask at
/// each event. It does nothing, and its contract is the statement.
pub fn events_can_come()
    ensures ticks { TicksCanGoBy }
    ensures restarts { NodeCanRestart }
    ensures changes { ChangesCanCome }
    ensures messages { MessagesCanBeTold }
    ensures hears { PortsCanHear }
    ensures counts { PortsCanCount }
    ensures frames { FramesCanBeTaken }
{}
