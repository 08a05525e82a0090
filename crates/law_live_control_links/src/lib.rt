//! The control link of a node stays calm in a network: where a controller and its switch have met, and the frames on their way
//! between them are of calm messages, so it is behind each carry, wherever it is, and behind each tick below the limit of
//! silence; and so it is at rest where both have met. `law_live_control` says what a calm message makes of either.
//!
//! `specs/Law` has the statements: what is asked of each event is what holds in a run (that chains which pass are the frames of
//! their last cells, that frames stay, that ports are of links), and besides that a request which the switch hears is carried
//! out, and that transaction numbers aren't spent. So nothing else is heard on the GSMP channel. `proofs/Controllers` and
//! `proofs/Switches` have what a cell makes of either, `proofs/Sites` what a node's acting makes of a network, `proofs/Events`
//! the events, `proofs/Heard` what is heard of what is on its way, and `proofs/Runs` what holds in a run. There is no code that
//! runs.
#![tactic(auto)]

ghost use Rattle.law_live_control_links.specs.Law.{LinksRestCalm, RunsAreSteady, NothingElseIsHeard, CarriesKeepCalm, TicksKeepCalm, SwitchTicksKeepCalm};

/// A control link stays calm behind carries and ticks, and is so at rest. It does nothing, and its contract is the statements.
pub fn links_stay_calm()
    ensures rests { LinksRestCalm }
    ensures runs { RunsAreSteady }
    ensures heard { NothingElseIsHeard }
    ensures carries { CarriesKeepCalm }
    ensures ticks { TicksKeepCalm }
    ensures switch_ticks { SwitchTicksKeepCalm }
{}
