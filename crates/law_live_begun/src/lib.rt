//! A network that begins, before the first packet enters (RFC 1953, RFC 1987): its nodes meet, their ports are cleared and greet each other,
//! and behind eleven calm beats it is unlabelled.
//!
//! `specs/Begun` has the statement of a run, `specs/First` what is so of a node and of what is on its way there, `specs/Codec` what is read in
//! it, `specs/Controllers` and `specs/Switches` that both go on so, and `specs/Worlds` the network; `specs/Beats` has what quiet beats bring a
//! node and a link, `specs/Ways` the default channels, `specs/Law` the statement of every run, and `specs/Given` what it stands on here. The
//! proofs of each stand in files whose names begin so, `proofs/Quiet` has quiet beats, and `proofs/Peace` and `LinksPeace` nodes and links in them. There is no code
//! that runs.
#![tactic(auto)]

ghost use Rattle.law_live_begun.specs.Codec.{GreetingsAreRead};
ghost use Rattle.law_live_begun.specs.Controllers.{NothingIsAwaited};
ghost use Rattle.law_live_begun.specs.Given.{GivenNetworksGoOn, GivenNodesBeginInPeace, GivenNodesStayUp, GivenRunsBegin};
ghost use Rattle.law_live_begun.specs.Switches.{SwitchesGoOn};

use law_link_parties::{runs_are_whole, runs_keep_links_met, woken_nodes_stay_met};

/// What is read in what is made before the first packet enters is such as was said. It does nothing, and its contract is the statement.
pub fn greetings_are_read()
    ensures read { GreetingsAreRead }
{}

/// A switch goes on so, whatever comes of greetings and first requests: it carries out each, and keeps what leads unless all of a port is
/// deleted. It does nothing, and its contract is the statement.
pub fn switches_go_on()
    ensures switches { SwitchesGoOn }
{}

/// A network goes on so along quiet events, given that its controllers do. It calls the laws that it stands on, and its contract is the
/// statement.
pub fn networks_go_on()
    ensures networks { GivenNetworksGoOn }
{
    runs_are_whole();
    greetings_are_read();
    switches_go_on();
}

/// Calm quiet beats that begin a run are in peace at each node, which has met and stays up, given the same. It calls the laws that it stands
/// on, and its contract is the statements.
pub fn nodes_begin_in_peace()
    ensures peace { GivenNodesBeginInPeace }
    ensures up { GivenNodesStayUp }
{
    runs_are_whole();
    woken_nodes_stay_met();
    greetings_are_read();
    networks_go_on();
}

/// Where nothing stands at the desk of a controller that is ready, it has met its switch, and none of its ports waits to be cleared. It does
/// nothing, and its contract is the statement.
pub fn nothing_is_awaited()
    ensures awaited { NothingIsAwaited }
{}

/// In every run a network that begins is unlabelled behind eleven calm beats in which no packet is sent, given that besides its nodes are
/// cleared behind five of them, and its default channels lead. It calls the laws that it stands on, and its contract is the statement.
pub fn runs_begin()
    ensures begin { GivenRunsBegin }
{
    runs_keep_links_met();
    networks_go_on();
    nodes_begin_in_peace();
}
