//! Drops and the drop log in every run. The losses of an event are of cells on their way, which a link loses, which
//! come where nothing takes them, or which find no slot; of frames that are made and not put into a queue; and of
//! frames that are cut, since the branch ends on which they are open, or the chain is given up that has cells of them.
//! The ledger has an entry of each, and no other entry of these five causes; it has the losses that the records tell,
//! in their order; and of each mark it has an entry Broken only where it has none before.
//!
//! The statement is `AreTrueLosses` of `truth_model`, and holds whichever events come, forged frames among them. `proofs/Notes`, `Sent` and `Cutting` have what is entered of
//! chains, of frames, and of what is cut; `Steps`, `Walk` and `Arriving` go over the rules of a controller, with `Chains`,
//! `Switches`, `Branches` and `Switched` over those of a switch. `Sites`, `Held` and `Puts` say what an actor's site shows of
//! it, `Opens` and `Opened` what is open on branches, `Worlds` goes over the events, `Runs` along a run. There is no code that runs.
#![tactic(auto)]

ghost use Rattle.law_true_losses.specs.Law.{LossesAreTrue};

/// In every run each event enters into the ledger the losses that its records tell, in their order. Those with the cause
/// Lost, Unconnected, Unbound or PoolFull are the cells that it loses, brings where nothing takes them, or brings where no slot
/// is free, each once, and then the frames that it makes and doesn't put; those that are Cut are the frames that were open on a
/// branch or in a chain that it ends. Each that is Broken is the first of its mark. It does nothing, and its contract is the statement.
pub fn losses_are_true()
    ensures losses { LossesAreTrue }
{}
