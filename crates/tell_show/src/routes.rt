//! The routes of a node, and the changes that wait.

ghost use Rattle.std.specs.Prelude.{◌≡◌, ◌++◌, ◌==◌, ◌&&◌, slice_get, OnOk, Some};
ghost use Rattle.ipv4_forward.specs.declared.change.RouteChange.{RouteChange};
ghost use Rattle.show_text.specs.Node.{route_lines, waiting_line, waiting_lines};

use controller_routes::Routes;
use ipv4_forward::Route;
use lab_text::Text;
use net_types::{NodeId, OutOfMemory};
use show_text::{write_route, write_waiting};
use topology::Topology;

/// Appends the lines of routes, in their order.
pub(crate) fn write_routes(
    out: &mut Text,
    names: &Topology,
    node: NodeId,
    table: &[Route],
) -> Result<(), OutOfMemory>
    ensures { OnOk result (out.new ≡ out.old ++ route_lines names.now node table.now) }
{
    for route in table {
        write_route(out, names, node, route)?;
    }
    Ok(())
}

/// Appends the line of the change that waits at an index, from 0; the first may be begun.
fn write_change_at(
    out: &mut Text,
    names: &Topology,
    node: NodeId,
    routes: &Routes,
    place: usize,
) -> Result<(), OutOfMemory>
    ensures { (change : RouteChange) → slice_get routes.now.waiting place ≡ Some change → OnOk result (out.new ≡ out.old ++ waiting_line names.now node (routes.now.is_begun && (place == 0)) change) }
{
    match routes.waiting_at(place) {
        Some(change) => {
            let begun = routes.is_begun() && place == 0;
            write_waiting(out, names, node, begun, &change)
        }
        None => Ok(()),
    }
}

/// Appends the lines of the changes that wait, in their order.
pub(crate) fn write_changes(
    out: &mut Text,
    names: &Topology,
    node: NodeId,
    routes: &Routes,
) -> Result<(), OutOfMemory>
    ensures { OnOk result (out.new ≡ out.old ++ waiting_lines names.now node routes.now.is_begun routes.now.waiting) }
{
    for place in 0..routes.waiting() {
        write_change_at(out, names, node, routes, place)?;
    }
    Ok(())
}
