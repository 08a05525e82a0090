//! Labels that are held.

ghost use Rattle.std.specs.Prelude.{◌≡◌, ◌++◌, OnOk, OnErr, codes, decimal};
ghost use Rattle.lab_text.specs.Kept.{BreaksOff};
ghost use Rattle.port_labels.specs.Read.{label_of, state_from};
ghost use Rattle.script_model.specs.Texts.{label_text};
ghost use Rattle.show_text.specs.Port.{label_line, label_state_text};
ghost use Rattle.show_text.specs.Words.{at_text, flow_text, joined_text};

use crate::words::{write_at, write_flow, write_joined, write_number};
use ipv4_packet::FlowId;
use lab_text::Text;
use net_types::{End, NodeId, OutOfMemory, PortNo};
use port_labels::{HeldLabel, HeldState};
use record_text::write_label as write_label_number;
use topology::Topology;

fn state_word(state: HeldState) -> &'static str
    ensures { result.now ≡ label_state_text (state_from state) }
{
    match state {
        HeldState::Wiring => "wiring",
        HeldState::Offered => "offered",
        HeldState::Recalled {
            last: _,
            acknowledged,
        } => { if acknowledged { "returned" } else { "recalled" } }
        HeldState::Wired => "quit",
    }
}

/// Appends a word, a port of a node, and a label of the port.
pub(crate) fn write_front(
    out: &mut Text,
    word: &str,
    names: &Topology,
    node: NodeId,
    port: PortNo,
    label: u16,
) -> Result<(), OutOfMemory>
    ensures ok { OnOk result (out.new ≡ out.old ++ (word.now ++ (at_text names.now node port ++ (codes " " ++ label_text names.now label)))) }
    ensures err { OnErr result (BreaksOff out.old (out.old ++ (word.now ++ (at_text names.now node port ++ (codes " " ++ label_text names.now label)))) out.new) }
{
    out.text(word)?;
    write_at(out, names, node, port)?;
    out.text(" ")?;
    write_label_number(out, names, label)
}

/// Appends the state of a label, for how many ticks no packet used it, and how many ticks ago the last
/// REDIRECT was sent.
fn write_ticks(out: &mut Text, label: &HeldLabel) -> Result<(), OutOfMemory>
    ensures ok { OnOk result (out.new ≡ out.old ++ (codes " " ++ (label_state_text (state_from label.now.state) ++ (codes " idle " ++ (decimal label.now.idle ++ (codes " told " ++ decimal label.now.ticks)))))) }
    ensures err { OnErr result (BreaksOff out.old (out.old ++ (codes " " ++ (label_state_text (state_from label.now.state) ++ (codes " idle " ++ (decimal label.now.idle ++ (codes " told " ++ decimal label.now.ticks)))))) out.new) }
{
    out.text(" ")?;
    out.text(state_word(label.state))?;
    write_number(out, " idle ", u64::from(label.idle))?;
    write_number(out, " told ", u64::from(label.ticks))
}

/// Appends a flow, another label that is joined in this way, where there is one, and the end of the line.
pub(crate) fn write_flow_and_join(
    out: &mut Text,
    names: &Topology,
    flow: &FlowId,
    how: &str,
    join: Option<End>,
) -> Result<(), OutOfMemory>
    ensures ok { OnOk result (out.new ≡ out.old ++ (codes " " ++ (flow_text flow.now ++ (joined_text names.now how.now join ++ codes "\n")))) }
    ensures err { OnErr result (BreaksOff out.old (out.old ++ (codes " " ++ (flow_text flow.now ++ (joined_text names.now how.now join ++ codes "\n")))) out.new) }
{
    out.text(" ")?;
    write_flow(out, flow)?;
    write_joined(out, names, how, join)?;
    out.text("\n")
}

/// Appends the line of a label that a port holds.
pub fn write_label(
    out: &mut Text,
    names: &Topology,
    node: NodeId,
    port: PortNo,
    label: &HeldLabel,
) -> Result<(), OutOfMemory>
    ensures ok { OnOk result (out.new ≡ out.old ++ label_line names.now node port (label_of label.now)) }
    ensures err { OnErr result (BreaksOff out.old (out.old ++ label_line names.now node port (label_of label.now)) out.new) }
{
    write_front(out, "label ", names, node, port, label.number)?;
    write_ticks(out, label)?;
    write_flow_and_join(out, names, &label.flow, " to ", label.join)
}
