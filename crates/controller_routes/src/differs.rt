//! The route of a flow before and after a change.

ghost use Rattle.std.specs.Prelude.{◌≡◌};
ghost use Rattle.ipv4_packet.specs.Parts.{flow_destination};
ghost use Rattle.world_model.specs.Routes.{differs, same_next};

use ipv4_forward::{Next, RouteChange, Table};
use ipv4_packet::FlowId;
use net_types::Addr;

/// The destination of a flow's packets.
pub fn destination_of(flow: &FlowId) -> Addr
    ensures { result ≡ flow_destination flow.now }
{
    match *flow {
        FlowId::One { destination, .. } => destination,
        FlowId::Two { destination, .. } => destination,
    }
}

/// Whether two routes lead the same way.
fn same_next(next: Option<Next>, other: Option<Next>) -> bool
    ensures { result ≡ same_next next other }
{
    match (next, other) {
        (None, None) => true,
        (Some(Next::Local), Some(Next::Local)) => true,
        (Some(Next::Via(port)), Some(Next::Via(another))) => port.0 == another.0,
        _differ => false,
    }
}

/// Whether the best route of a destination is another after the change, whatever the packets' Time To
/// Live.
pub(crate) fn differs(table: &Table, change: &RouteChange, destination: Addr) -> bool
    ensures { result ≡ differs table.now change.now destination }
{
    !same_next(
        table.lookup(destination),
        table.lookup_after(change, destination),
    )
}
