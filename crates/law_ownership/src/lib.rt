//! Agreement on label bindings between the ends of a link, between the events of a run. Each label is owned: who uses
//! it stands for the flow that it was bound to last, nobody uses one that is spare or wired, a spare one leads to its
//! controller, none that isn't recalled is reclaimed, and an end in Estab knows a peer that was cleared. And what is
//! said on each way of a link is in the order of its numbers, as copies of requests are on their way to a switch. It is
//! read off what holds of the network. There is no code that runs.
#![tactic(auto)]

ghost use Rattle.law_ownership.specs.Binds.{EachBindIsUnused};
ghost use Rattle.law_ownership.specs.Copies.{CopiesAreInOrder};
ghost use Rattle.law_ownership.specs.Owning.{LabelsAreOwned, WaysAreInOrder};
ghost use Rattle.law_ownership.specs.Places.{WaysAreOwn};

use law_branch_line::input_law;
use law_frame_readings::frames_are_read;
use law_label_line::label_is_owned;
use law_run_facts::nodes_are_steady;
use law_unused_labels::labels_are_unused;

/// Each label is owned where what goes between the ends of a link, and between a controller and its switch, is on its own
/// channel; and so it is where control frames go as GSMP on its channel, or by a port of a link. It calls the laws of frames that
/// are read, of each run, of the machines of labels and of inputs, and of labels that nobody uses, and its contract is the statement.
pub fn labels_are_owned()
    ensures owned { LabelsAreOwned }
    ensures ordered { WaysAreInOrder }
    ensures copies { CopiesAreInOrder }
    ensures ways { WaysAreOwn }
    ensures binds { EachBindIsUnused }
{
    frames_are_read();
    nodes_are_steady();
    label_is_owned();
    input_law();
    labels_are_unused();
}
