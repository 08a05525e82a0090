//! Conservation of packets in a network of IP switches: what each cell on its way stands for, and that no packet is
//! there twice.
//!
//! A cell on a label stands for the packet that its frame carries under the flow that was bound last, as it came to the
//! end of its link by routing, and a last cell of a default channel for the packet in its frame. Of each packet there is
//! at most one last cell or one record of its fate, and exactly one where it was accepted and the ledger has no entry of
//! it; each record of a fate is one that routing hop by hop allows. Each event keeps that.
//!
//! `specs/Law` has the statements. An event is a turn of one actor, or of two behind one another: `proofs/Good` has what
//! holds in the midst of a turn, when one queue changes and so many packets are in hand, and `proofs/Sends` to
//! `proofs/Switches` what actors do in it, all else that a controller does by `proofs/Walk`. `proofs/Worlds` to
//! `proofs/Events` take turns in a network; `proofs/Sites` and `proofs/Starts` read what is known before the event off
//! the run, and `proofs/Behind` puts it back. There is no code that runs.
#![tactic(auto)]

ghost use Rattle.law_packet_worlds.specs.Law.{FatesAreOnce, PacketsAreKept, PacketsBegin};

/// Each event of a run keeps what cells mean, that packets are once, and that cells are on the channels of links, where
/// nobody may use a label that it binds; so it is at the opening; and then each packet has one fate at most. It does
/// nothing, and its contract is the statement.
pub fn packets_are_kept()
    ensures events { PacketsAreKept }
    ensures opening { PacketsBegin }
    ensures once { FatesAreOnce }
{}
