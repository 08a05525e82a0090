//! A node stays mirrored as its controller hears what a carry brings it (RFC 1987): at each frame that comes in peace it asks nothing of
//! its switch, or one request, the branch of a label or of a grant, and puts into the queue to the switch the frame that asks just that.
//! This is what `law_live_mirrored_worlds` asks of a carry to a controller.
//!
//! `specs/Law` has what is asked, `specs/Frames` at which frames, `specs/Carries` the carries of a network and of a run, `specs/Peace`
//! what a carry brings a node in peace, `specs/Stretches` a stretch of a run, and `specs/Going` a network in peace from carry to carry.
//! `proofs/Puts` goes through what is put into the queue, `proofs/Still` through what leaves ports and desk as they lead, `proofs/Frames`
//! through the frames of ports, `proofs/Counting` through packets that are counted, `proofs/Peace` through messages in peace,
//! `proofs/Told` through what the switch says, `proofs/Asks` through the one that is asked, `proofs/Notes` and `proofs/Cells` through the
//! cells, and `proofs/Carries` and `proofs/Runs` through the events. `proofs/Calm` and `proofs/Joins` have what a calm switch says,
//! `proofs/Links` what comes on default channels, `proofs/Stretches` stretches, and `proofs/Going` and `proofs/Through` the carries of a
//! network in peace. There is no code that runs.
#![tactic(auto)]

ghost use Rattle.law_live_asking.specs.Frames.{PlainMessagesAskNone, PlainFramesAskNone, LabelFramesAskNone, UnheardFramesWorkPlainly, AcksWorkPlainly, RefreshesWorkPlainly, FramesAskFew, MessagesInPeaceMayCome};
ghost use Rattle.law_live_asking.specs.Carries.{CarriesAskSome, CalmLinksMayCome, KnownSwitchesAreAsked, CarriesAsk};
ghost use Rattle.law_live_asking.specs.Peace.{JoinsArePlain, CalmNodesMayHear, PeacefulEndsMayHear, PeacefulNodesMayHear};
ghost use Rattle.law_live_asking.specs.Stretches.{RunsCarryOut};
ghost use Rattle.law_live_asking.specs.Going.{CarriesInPeaceGoOn, CarriesInPeaceCarryOut};

pub use law_live_lasting::runs_are_whole;

/// A frame makes a controller ask nothing, or one request. It does nothing, and its contract is the statements.
pub fn frames_ask_few()
    ensures told { PlainMessagesAskNone }
    ensures plain { PlainFramesAskNone }
    ensures labels { LabelFramesAskNone }
    ensures unheard { UnheardFramesWorkPlainly }
    ensures acks { AcksWorkPlainly }
    ensures refreshes { RefreshesWorkPlainly }
    ensures peace { MessagesInPeaceMayCome }
    ensures few { FramesAskFew }
{}

/// A carry to a controller makes it ask what its frame does. It does nothing, and its contract is the statements.
pub fn carries_ask()
    ensures some { CarriesAskSome }
    ensures calm { CalmLinksMayCome }
    ensures known { KnownSwitchesAreAsked }
    ensures carries { CarriesAsk }
{}

/// In a network in peace a carry brings a controller what may come. It does nothing, and its contract is the statements.
pub fn nodes_hear_in_peace()
    ensures joins { JoinsArePlain }
    ensures nodes { CalmNodesMayHear }
    ensures ends { PeacefulEndsMayHear }
    ensures peace { PeacefulNodesMayHear }
{}

/// Along a calm stretch of a run each request that comes next is carried out. It calls the law that it stands on, and its contract is
/// the statement.
pub fn stretches_carry_out()
    ensures runs { RunsCarryOut }
{
    runs_are_whole();
}

/// From carry to carry a network in peace goes on, and each request that comes next is carried out. It calls the law that it stands
/// on, and its contract is the statements.
pub fn carries_in_peace_go_on()
    ensures one { CarriesInPeaceGoOn }
    ensures all { CarriesInPeaceCarryOut }
{
    runs_are_whole();
}
