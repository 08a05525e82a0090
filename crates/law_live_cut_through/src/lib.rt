//! A flow is cut through (RFC 1953, RFC 1987; Newman, Minshall and Lyon): at an unlabelled network, or behind calm beats that begin at one, enough
//! packets of a new flow that are sent along a free way bring it a label on each link of the way; in the next calm beat the labels are joined, each
//! to the next; and from then on each calm beat cuts the flow through, and each packet of it that is sent is switched: it passes no controller
//! but the first and the last. It is so of every run, whatever its policy.
//!
//! `specs/Law` has what stands at the nodes and links of a way; `specs/Runs` the statement of runs. What is held stays along what is carried and
//! sent in calm (`specs/Stretches`) and behind ticks (`specs/Ticks`); switches lead the channels of what is held (`specs/Leading`), and frames go
//! where they lead (`specs/Led`); controllers forward what comes under a label, and send under one (`specs/Under`). So a flow gets its
//! labels, and they are joined (`specs/First`, with `specs/Ease`); and a way that stands does so from beat to beat, and packets are switched
//! on it (`specs/Later`). The proofs of each stand in files whose names begin so, but for those of `specs/First` and `specs/Later`, which are
//! `First..`, `Joining..`, `Standing` and `Switched..`; `Labels..` and `Requests..` are of stretches, `Alone..` of frames. There is no code that
//! runs.
#![tactic(auto)]

ghost use Rattle.law_live_cut_through.specs.Ease.{EaseBinds, StretchesKeepEase};
ghost use Rattle.law_live_cut_through.specs.First.{FlowsAreLabelled, SettledAreAtEase, WaysComeToStand};
ghost use Rattle.law_live_cut_through.specs.Later.{PacketsAreSwitched, StandingWaysCutThrough, WaysStandBehindBeats, WaysStandInBeats, WaysStandInStretches};
ghost use Rattle.law_live_cut_through.specs.Leading.{GrantsAreFound, GrantsLead, GrantsLeadThere, LabelsLead, LabelsLeadThere};
ghost use Rattle.law_live_cut_through.specs.Led.{CellsAreUnlost, DeliveredAreAlone, FramesAreLed, SentFramesAreLed};
ghost use Rattle.law_live_cut_through.specs.Runs.{RunsCutThrough};
ghost use Rattle.law_live_cut_through.specs.Stretches.{StretchesAddBranches, StretchesJoinNone, StretchesKeepGrants, StretchesKeepLabels, StretchesLendNone, StretchesServeAlone};
ghost use Rattle.law_live_cut_through.specs.Ticks.{TicksKeepFirst, TicksKeepJoined, TicksKeepLast, TicksKeepLent, TicksServeAlone};
ghost use Rattle.law_live_cut_through.specs.Under.{BroughtPacketsGoOn, BroughtPacketsGoUnder, CarriesGoOn, EntriesGoOn, EntriesGoUnder, LabelledAreDelivered, LabelledForward, LabelledFramesCarry, LabelledGoUnder};

pub use law_live_ease::runs_agree;
use law_live_ease::{
    flows_come_to_be_served, hops_are_heard, messages_are_written, networks_bind_on,
    networks_settle, networks_stay_at_ease, runs_are_whole, ticks_bind,
    unlabelled_networks_are_at_ease,
};

/// Along a calm stretch of a network that binds what is held stays, no label is joined, and no grant is lent. It calls the laws that it
/// stands on, and its contract is the statements.
pub fn labels_stay_in_stretches()
    ensures labels { StretchesKeepLabels }
    ensures grants { StretchesKeepGrants }
    ensures none_joined { StretchesJoinNone }
    ensures none_lent { StretchesLendNone }
{
    networks_bind_on();
    runs_are_whole();
}

/// In a calm stretch of a network that binds only branches are asked for, where that is so as it begins. It calls the laws that it stands
/// on, and its contract is the statement.
pub fn requests_add_branches()
    ensures add { StretchesAddBranches }
{
    networks_bind_on();
    runs_are_whole();
}

/// A label that serves a flow alone does so throughout such a stretch. It calls the laws that it stands on, and its contract is the
/// statement.
pub fn labels_serve_alone()
    ensures alone { StretchesServeAlone }
{
    networks_bind_on();
    runs_are_whole();
}

/// Behind the ticks that begin a calm beat of a network at ease what is held is so still. It calls the law that it stands on, and its contract
/// is the statements.
pub fn ticks_keep_labels()
    ensures joined { TicksKeepJoined }
    ensures last { TicksKeepLast }
    ensures lent { TicksKeepLent }
    ensures first { TicksKeepFirst }
    ensures alone { TicksServeAlone }
{
    runs_are_whole();
}

/// The channel of a label that is held leads to what the label is joined to, or to the controller, and that of a grant out to the label's; and
/// a controller finds the grant that is held for a flow. It calls the law that it stands on, and its contract is the statements.
pub fn held_labels_lead()
    ensures labels { LabelsLead }
    ensures labels_there { LabelsLeadThere }
    ensures grants { GrantsLead }
    ensures grants_there { GrantsLeadThere }
    ensures found { GrantsAreFound }
{
    runs_are_whole();
}

/// A frame that waits for its first switch on the channel of a grant comes to the controller at the last end to which the switches lead
/// it; and so does one that is sent under a grant in a stretch of a run. It calls the law that it stands on, and its contract is
/// the statements.
pub fn frames_are_led()
    ensures frames { FramesAreLed }
    ensures sent { SentFramesAreLed }
{
    runs_are_whole();
}

/// Of a cell that waits in a queue in a calm stretch of a run the ledger has no entry. It does nothing, and its contract is the
/// statement.
pub fn cells_are_unlost()
    ensures unlost { CellsAreUnlost }
{}

/// Of a packet that a controller delivers in a stretch of a run no further frame is made. It calls the law that it stands on, and its
/// contract is the statement.
pub fn delivered_are_alone()
    ensures alone { DeliveredAreAlone }
{
    runs_are_whole();
}

/// A packet that enters, or is brought on a default channel, goes on by its route, on the default channel or under its grant. It does
/// nothing, and its contract is the statements.
pub fn packets_go_on()
    ensures entries { EntriesGoOn }
    ensures entries_under { EntriesGoUnder }
    ensures brought { BroughtPacketsGoOn }
    ensures brought_under { BroughtPacketsGoUnder }
{}

/// So does a packet that is brought under a label, unless it is delivered. It does nothing, and its contract is the statements.
pub fn labelled_packets_go_on()
    ensures delivered { LabelledAreDelivered }
    ensures forward { LabelledForward }
    ensures under { LabelledGoUnder }
{}

/// A frame under a label carries its packet as one of the label's flow, hop by hop. It does nothing, and its contract is the statements.
pub fn labels_carry_packets()
    ensures carry { LabelledFramesCarry }
    ensures go_on { CarriesGoOn }
{}

/// A network at ease binds, and is at ease again behind a calm stretch. It calls the laws that it stands on, and its contract is the
/// statements.
pub fn ease_binds_and_stays()
    ensures binds { EaseBinds }
    ensures stays { StretchesKeepEase }
{
    networks_bind_on();
    networks_settle();
    runs_are_whole();
}

/// Enough packets of a flow bring it a label on each link of its way. It calls the laws that it stands on, and its contract is the
/// statement.
pub fn flows_are_labelled()
    ensures labelled { FlowsAreLabelled }
{
    labels_stay_in_stretches();
    requests_add_branches();
    held_labels_lead();
    frames_are_led();
    cells_are_unlost();
    packets_go_on();
    labelled_packets_go_on();
    runs_are_whole();
    hops_are_heard();
    networks_bind_on();
    networks_stay_at_ease();
    flows_come_to_be_served();
}

/// The labels of a way are joined in a calm beat, so that the way stands; and it stands from then on, behind each calm beat. It calls
/// the laws that it stands on, and its contract is the statements.
pub fn ways_stand()
    ensures settled { SettledAreAtEase }
    ensures come { WaysComeToStand }
    ensures stretches { WaysStandInStretches }
    ensures beats { WaysStandInBeats }
    ensures behind { WaysStandBehindBeats }
{
    labels_stay_in_stretches();
    labels_serve_alone();
    ticks_keep_labels();
    ticks_bind();
    networks_bind_on();
    networks_stay_at_ease();
    runs_are_whole();
}

/// A flow is cut through where its way stands, only branches are asked, and no queue has a cell; and in a calm beat behind whose ticks and
/// carries the way stands, each packet of the flow is switched. It calls the laws that it stands on, and its contract is the statements.
pub fn flows_are_switched()
    ensures cut { StandingWaysCutThrough }
    ensures switched { PacketsAreSwitched }
{
    labels_stay_in_stretches();
    requests_add_branches();
    held_labels_lead();
    frames_are_led();
    cells_are_unlost();
    delivered_are_alone();
    packets_go_on();
    labelled_packets_go_on();
    labels_carry_packets();
    ways_stand();
    ticks_bind();
    networks_bind_on();
    runs_are_whole();
}

/// In every run new flows of which enough packets are sent, at an unlabelled network or behind calm beats that begin at one, are cut through in calm
/// beats. It calls the laws that it stands on, and its contract is the statement.
pub fn runs_cut_through()
    ensures runs { RunsCutThrough }
{
    ease_binds_and_stays();
    flows_are_labelled();
    ways_stand();
    flows_are_switched();
    unlabelled_networks_are_at_ease();
    messages_are_written();
    ticks_bind();
    networks_bind_on();
    networks_stay_at_ease();
    runs_are_whole();
}
