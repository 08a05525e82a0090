//! A node, and the requests that stand.

ghost use Rattle.std.specs.Prelude.{◌≡◌, ◌++◌, OnOk, OnErr, codes};
ghost use Rattle.lab_text.specs.Kept.{BreaksOff};
ghost use Rattle.world_model.specs.Conditions.{IsNode};
ghost use Rattle.show_text.specs.Node.{address_of, node_line, request_line};
ghost use Rattle.show_text.specs.Words.{slots_text, state_text};

use crate::words::{state_word, write_head, write_slots};
use adjacency_table::State;
use gsmp_wire::Message;
use lab_text::Text;
use message_text::write_gsmp;
use net_types::{NodeId, OutOfMemory};
use record_text::write_address;
use topology::Topology;

/// Appends the address of a node.
fn write_address_of(out: &mut Text, names: &Topology, node: NodeId) -> Result<(), OutOfMemory>
    requires { IsNode names.now node }
    ensures ok { OnOk result (out.new ≡ out.old ++ address_of names.now node) }
    ensures err { OnErr result (BreaksOff out.old (out.old ++ address_of names.now node) out.new) }
{
    write_address(out, names.address(node))
}

/// Appends a state, how many slots are free, and the end of the line.
fn write_condition(
    out: &mut Text,
    state: State,
    free: usize,
    cells: usize,
) -> Result<(), OutOfMemory>
    ensures ok { OnOk result (out.new ≡ out.old ++ (codes " " ++ (state_text state ++ (slots_text free cells ++ codes "\n")))) }
    ensures err { OnErr result (BreaksOff out.old (out.old ++ (codes " " ++ (state_text state ++ (slots_text free cells ++ codes "\n")))) out.new) }
{
    out.text(" ")?;
    out.text(state_word(state))?;
    write_slots(out, free, cells)?;
    out.text("\n")
}

/// Appends the line of a node: its name and its address, the state of its controller's side of the
/// adjacency with its switch, and how many of the controller's slots are free.
pub fn write_node(
    out: &mut Text,
    names: &Topology,
    node: NodeId,
    state: State,
    free: usize,
    cells: usize,
) -> Result<(), OutOfMemory>
    requires { IsNode names.now node }
    ensures ok { OnOk result (out.new ≡ out.old ++ node_line names.now node state free cells) }
    ensures err { OnErr result (BreaksOff out.old (out.old ++ node_line names.now node state free cells) out.new) }
{
    write_head(out, "node ", names, node)?;
    write_address_of(out, names, node)?;
    write_condition(out, state, free, cells)
}

/// Appends the line of a request that stands, by its message.
pub fn write_request(
    out: &mut Text,
    names: &Topology,
    node: NodeId,
    message: &Message,
) -> Result<(), OutOfMemory>
    ensures ok { OnOk result (out.new ≡ out.old ++ request_line names.now node message.now) }
    ensures err { OnErr result (BreaksOff out.old (out.old ++ request_line names.now node message.now) out.new) }
{
    write_head(out, "request ", names, node)?;
    write_gsmp(out, message)?;
    out.text("\n")
}
