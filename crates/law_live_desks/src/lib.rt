//! What stands at a controller's desk is on its way (RFC 1987): a copy of each request that stands waits for the switch, or a
//! success that answers it waits for the controller; so it is behind calm events, and so at rest no request stands.
//!
//! `specs/Law` has the statements. What a controller does in an event puts the frames of what it asks into its queue, or enters a
//! loss into the ledger (`proofs/Standing`, `proofs/Walks`, `proofs/Frames`), and in a tick it sends again what stands
//! (`proofs/Again`); a switch that hears a request answers it (`proofs/Switches`). `proofs/Events` has the events, and
//! `proofs/Runs` what holds in a run. There is no code that runs.
#![tactic(auto)]

ghost use Rattle.law_live_desks.specs.Law.{CarriesKeepDesks, TicksKeepDesks, SwitchTicksKeepDesks, InjectsKeepDesks, TicksSendAgain, RestingDesksAreEmpty, RunsAreRead};

/// Each request that stands at a desk stays on its way, and at rest none stands. It does nothing, and its contract is the
/// statements.
pub fn desks_stay_on_their_way()
    ensures carries { CarriesKeepDesks }
    ensures ticks { TicksKeepDesks }
    ensures switch_ticks { SwitchTicksKeepDesks }
    ensures injects { InjectsKeepDesks }
    ensures again { TicksSendAgain }
    ensures rests { RestingDesksAreEmpty }
    ensures reading { RunsAreRead }
{}
