//! Joins of an input to an output.

ghost use Rattle.std.specs.Prelude.{◌≡◌, ◌<◌, ◌≤◌, option_map, IfSome, IsTrue};
ghost use Rattle.net_types.specs.Label.{is_label_number};
ghost use Rattle.ipv4_packet.specs.Parts.{flow_destination};
ghost use Rattle.port_model.specs.Grants.{grant_label};
ghost use Rattle.cut_through.specs.Plan.{onward_grant, planned, undoing, way_of};

use grant_table::GrantTable;
use gsmp_wire::Request;
use ipv4_forward::{Next, Table};
use ipv4_packet::{FlowId, next_hop};
use net_types::{Addr, CONTROL_PORT, End, PortNo, label_channel, on_control};

/// A cross-connect (a join), by its input and its output: cells of the input go out there, past the
/// controller (Newman, Minshall and Lyon, cut-through; RFC 1987, Move Branch).
#[derive(Clone, Copy, Debug, PartialEq, Eq)]
pub struct Join {
    /// The input.
    pub input: End,
    /// The output.
    pub output: End,
}

/// Where the packets of a flow go.
fn destination_of(flow: &FlowId) -> Addr
    ensures { result ≡ flow_destination flow.now }
{
    match *flow {
        FlowId::One { destination, .. } => destination,
        FlowId::Two { destination, .. } => destination,
    }
}

/// The port of a flow's route: there is one exactly where the flow's Time To Live is at least 2 and
/// the route of its destination leads by a port.
pub fn route_of(flow: &FlowId, table: &Table) -> Option<PortNo>
    ensures { result ≡ way_of table.now flow.now }
{
    if flow.ttl() < 2 {
        return None;
    }
    match table.lookup(destination_of(flow)) {
        Some(Next::Via(port)) => Some(port),
        Some(Next::Local) => None,
        None => None,
    }
}

/// The number of the label of the first grant under which the controller sends a flow one hop further;
/// `grants` are those of the port of the flow's route. There is none exactly where the flow has no hop
/// further, or there is no such grant.
pub fn planned_label(flow: &FlowId, grants: &GrantTable) -> Option<u16>
    ensures planned { result ≡ option_map grant_label (onward_grant grants.now.grants flow.now) }
    ensures label { IfSome result (λ number. IsTrue (is_label_number number)) }
{
    let further = next_hop(flow)?;
    grants.by_flow(&further)
}

/// The join of an input, on which a flow comes, to the label of the first grant of a port under which
/// the controller sends the flow one hop further; `grants` are those of the port. There is none exactly
/// where [`route_of`] isn't the port, or there is no such grant.
pub fn plan(
    input: End,
    flow: &FlowId,
    table: &Table,
    port: PortNo,
    grants: &GrantTable,
) -> Option<Join>
    ensures { result ≡ planned input flow.now table.now port grants.now.grants }
{
    let way = route_of(flow, table)?;
    if way != port {
        return None;
    }
    let label = planned_label(flow, grants)?;
    let output = End {
        port,
        channel: label_channel(label),
    };
    Some(Join { input, output })
}

/// What leads a join's input back to the control link. The input is a label of a port.
pub fn undo(join: &Join) -> Request
    requires port { (1 ≤ join.now.input.port.0) × (join.now.input.port.0 ≤ 8) }
    requires path { join.now.input.channel.vpi < 16 }
    ensures { result ≡ undoing join.now }
{
    Request::MoveBranch {
        input: join.input,
        from: join.output,
        to: End {
            port: CONTROL_PORT,
            channel: on_control(join.input.port, join.input.channel),
        },
    }
}
