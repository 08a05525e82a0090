//! Flows that are counted.

ghost use Rattle.std.specs.Prelude.{◌≡◌, ◌++◌, OnOk, OnErr};
ghost use Rattle.lab_text.specs.Kept.{BreaksOff};
ghost use Rattle.show_text.specs.Port.{count_line};

use crate::words::{write_at, write_flow, write_number};
use ipv4_packet::FlowId;
use lab_text::Text;
use net_types::{NodeId, OutOfMemory, PortNo};
use topology::Topology;

/// Appends the line of a flow that a port counts, with how many of its packets came in the window.
pub fn write_count(
    out: &mut Text,
    names: &Topology,
    node: NodeId,
    port: PortNo,
    flow: &FlowId,
    packets: u32,
) -> Result<(), OutOfMemory>
    ensures ok { OnOk result (out.new ≡ out.old ++ count_line names.now node port flow.now packets) }
    ensures err { OnErr result (BreaksOff out.old (out.old ++ count_line names.now node port flow.now packets) out.new) }
{
    out.text("count ")?;
    write_at(out, names, node, port)?;
    write_number(out, " ", u64::from(packets))?;
    out.text(" ")?;
    write_flow(out, flow)?;
    out.text("\n")
}
