//! A network at ease, in which nothing is on its way and the two ends of each link agree (RFC 1953, RFC 1987), is so again behind each calm
//! beat, whatever packets are sent in it; an unlabelled network is at ease; and so in every run both ends of each link hold the same labels, for
//! the same flows, behind calm beats that begin at an unlabelled network. Enough packets of a flow make a label serve it.
//!
//! `specs/Law` has what a network at ease is, and what one that *binds*, as it is from event to event of such a beat; `specs/Beats` has
//! calm beats. `specs/Ticks`: behind the ticks that begin a calm beat a network that was at ease binds. `specs/Coming`, `Nodes`, `Links`:
//! behind a carry its nodes go on, with what it brings a controller, and its links; `specs/Entries`: so does all as a packet enters;
//! `specs/Binding` puts these together, along a stretch and throughout a beat. `specs/Settling`: once no queue has a cell, it is at ease.
//! `specs/Written`: what a port says in its tick can be written. `specs/Served`: a flow of which enough packets are heard is served by a
//! label. `specs/Unlabelled`, `AtEase`, `Agreeing` have what follows. The proofs of each stand in files whose names begin so. There is no code that runs.
#![tactic(auto)]

ghost use Rattle.law_live_ease.specs.Agreeing.{RunsAgree};
ghost use Rattle.law_live_ease.specs.AtEase.{BeatsKeepEase, EaseLasts, EndsAtEaseAgree};
ghost use Rattle.law_live_ease.specs.Binding.{BeatsBindOn, NetworksBindOn, StretchesBindOn};
ghost use Rattle.law_live_ease.specs.Coming.{CarriesKeepTies, CarriesMayCome};
ghost use Rattle.law_live_ease.specs.Entries.{EntriesBindOn};
ghost use Rattle.law_live_ease.specs.Unlabelled.{UnlabelledNetworksAreAtEase};
ghost use Rattle.law_live_ease.specs.Links.{LinksBindOn};
ghost use Rattle.law_live_ease.specs.Nodes.{NodesBindOn};
ghost use Rattle.law_live_ease.specs.Served.{FlowsComeToBeServed};
ghost use Rattle.law_live_ease.specs.Settling.{BeatsAreHeard, BindingNetworksRest};
ghost use Rattle.law_live_ease.specs.Ticks.{TicksBind};
ghost use Rattle.law_live_ease.specs.Written.{MessagesAreWritten};

pub use law_live_journeys::{hops_are_heard, runs_are_whole};

/// What a carry brings a node of a network that binds may come, as `law_live_asking` has it. It does nothing, and its contract is the
/// statement.
pub fn carries_may_come()
    ensures may_come { CarriesMayCome }
{}

/// Behind it the node's desk and its ports are tied. It does nothing, and its contract is the statement.
pub fn carries_keep_ties()
    ensures ties { CarriesKeepTies }
{}

/// Behind a carry each node of a network that binds goes on so, and each switch carries out the request that comes next. It calls the
/// laws that it stands on, and its contract is the statement.
pub fn nodes_bind_on()
    ensures nodes { NodesBindOn }
{
    carries_may_come();
    carries_keep_ties();
    runs_are_whole();
}

/// Behind a carry each link of a network that binds does so. It does nothing, and its contract is the statement.
pub fn links_bind_on()
    ensures links { LinksBindOn }
{}

/// A packet that enters leaves a network that binds binding. It does nothing, and its contract is the statement.
pub fn entries_bind_on()
    ensures entries { EntriesBindOn }
{}

/// A network that binds goes on so, behind a carry, along a stretch, and throughout a beat. It calls the laws that it stands on, and
/// its contract is the statements.
pub fn networks_bind_on()
    ensures carries { NetworksBindOn }
    ensures stretches { StretchesBindOn }
    ensures beats { BeatsBindOn }
{
    nodes_bind_on();
    entries_bind_on();
    runs_are_whole();
}

/// Behind the ticks that begin a calm beat a network that was at ease binds. It calls the law that it stands on, and its contract is
/// the statement.
pub fn ticks_bind()
    ensures ticks { TicksBind }
{
    runs_are_whole();
}

/// A network that binds is at ease once no queue has a cell; and all have heard one another behind a calm beat of one at ease that binds
/// throughout it. It calls the law that it stands on, and its contract is the statements.
pub fn networks_settle()
    ensures rest { BindingNetworksRest }
    ensures heard { BeatsAreHeard }
{
    runs_are_whole();
}

/// Enough packets of a flow that are heard at an end of a link make a label serve it there. It calls the law that it stands on, and its
/// contract is the statement.
pub fn flows_come_to_be_served()
    ensures served { FlowsComeToBeServed }
{
    networks_bind_on();
}

/// An unlabelled network is at ease. It calls the law that it stands on, and its contract is the statement.
pub fn unlabelled_networks_are_at_ease()
    ensures ease { UnlabelledNetworksAreAtEase }
{
    runs_are_whole();
}

/// A network at ease stays so, beat by beat, and the two ends of each link agree. It calls the laws that it stands on, and its contract
/// is the statements.
pub fn networks_stay_at_ease()
    ensures beats { BeatsKeepEase }
    ensures lasts { EaseLasts }
    ensures ends { EndsAtEaseAgree }
{
    ticks_bind();
    networks_bind_on();
    networks_settle();
}

/// What a port that agrees at rest says in its tick can be written. It does nothing, and its contract is the statement.
pub fn messages_are_written()
    ensures written { MessagesAreWritten }
{}

/// In every run both ends of each link hold the same labels behind calm beats that begin at an unlabelled network. It calls the laws that it
/// stands on, and its contract is the statement.
pub fn runs_agree()
    ensures agree { RunsAgree }
{
    unlabelled_networks_are_at_ease();
    networks_stay_at_ease();
    messages_are_written();
    runs_are_whole();
}
