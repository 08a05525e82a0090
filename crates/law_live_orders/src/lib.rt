//! Frames come in the order in which they were sent, between the two controllers of a link (RFC 1953): those of the default
//! channel, from the controller that sends them through its switch, over the link and through the other switch to the
//! controller that hears them, so long as none is lost on the way.
//!
//! `specs/Law` has the statements of frames, each by the mark of its last cell, and `specs/Messages` those of the messages of IFMP
//! in them; `specs/Hearing` has that the port at the far end hears such a message, and `specs/Shapes` why default channels lead
//! there alone. How queues change is `law_passing`'s. What a switch puts into its queues is followed here, by channels
//! (`proofs/Switches`), so that what an event puts into a queue of the way is what it took from the one before
//! (`proofs/Hops`); the rest is lists (`proofs/Orders`). There is no code that runs.
#![tactic(auto)]

ghost use Rattle.law_live_orders.specs.Law.{FramesComeInOrder, FirstFramesAreHeard, FramesSentComeLast, AllElseLeavesThem, StretchesComeInOrder};
ghost use Rattle.law_live_orders.specs.Hearing.{PortsHearMessages};
ghost use Rattle.law_live_orders.specs.Shapes.{ShapesLeadAlone};
ghost use Rattle.law_live_orders.specs.Slots.{UnlostFindSlots};
ghost use Rattle.law_live_orders.specs.Messages.{SayingsStay, FirstMessagesAreHeard, MessagesSentComeLast, AllElseLeavesMessages};

/// Frames on the default channel of a link come in the order in which they were sent, and so do the messages in them. It does
/// nothing, and its contract is the statements.
pub fn frames_come_in_order()
    ensures order { FramesComeInOrder }
    ensures first { FirstFramesAreHeard }
    ensures sent { FramesSentComeLast }
    ensures others { AllElseLeavesThem }
    ensures stretches { StretchesComeInOrder }
    ensures sayings { SayingsStay }
    ensures first_message { FirstMessagesAreHeard }
    ensures messages_sent { MessagesSentComeLast }
    ensures other_messages { AllElseLeavesMessages }
{}

/// A message that comes is heard by the port at the far end. It does nothing, and its contract is the statement.
pub fn ports_hear_messages()
    ensures hear { PortsHearMessages }
{}

/// Default channels lead to their port and home, and nothing else does. It does nothing, and its contract is the statement.
pub fn shapes_lead_alone()
    ensures alone { ShapesLeadAlone }
{}

/// A carry of whose cell the ledger has no entry finds a slot. It does nothing, and its contract is the statement.
pub fn unlost_find_slots()
    ensures find { UnlostFindSlots }
{}
