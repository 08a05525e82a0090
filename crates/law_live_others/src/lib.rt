//! What a controller hears that isn't for a port leaves the port as its peer sees it (RFC 1953, RFC 1987): whatever comes on the
//! default channel of another port or on the channel of a label, a packet on its own that asks for no label, and what the
//! switch says, where nothing of the port is being made or taken back. Of what the node does then, only its reset would
//! change the port.
//!
//! `specs/Law` has the statements, of any controller. What the rules of other ports and what they ask leave of a port is in
//! `proofs/Working`, what packets and messages leave of it in `proofs/Holding`, what the switch says in `proofs/Answering` and
//! `proofs/Framing`. There is no code that runs.
#![tactic(auto)]

ghost use Rattle.law_live_others.specs.Law.{AgreedEndsAreSettled, FramesForOthersAreUnseen};

/// What a controller hears for others than a port leaves it as its peer sees it. It does nothing, and its contract is the
/// statements.
pub fn frames_for_others_are_unseen()
    ensures settled { AgreedEndsAreSettled }
    ensures frames { FramesForOthersAreUnseen }
{}
