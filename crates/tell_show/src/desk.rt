//! The requests that stand at a node.

ghost use Rattle.std.specs.Prelude.{◌≡◌, ◌++◌, slice_get, OnOk, Some};
ghost use Rattle.port_model.specs.Desk.{Standing, message_at};
ghost use Rattle.show_text.specs.Node.{request_line, request_lines};

use branch_desk::Desk;
use lab_text::Text;
use net_types::{NodeId, OutOfMemory};
use show_text::write_request;
use topology::Topology;

/// Appends the line of the request at an index in the order of the numbers, from 0.
fn write_request_at(
    out: &mut Text,
    names: &Topology,
    node: NodeId,
    desk: &Desk,
    place: usize,
) -> Result<(), OutOfMemory>
    ensures { (s : Standing) → slice_get desk.now.standing place ≡ Some s → OnOk result (out.new ≡ out.old ++ request_line names.now node (message_at desk.now s)) }
{
    match desk.resend(place) {
        Some(message) => write_request(out, names, node, &message),
        None => Ok(()),
    }
}

/// Appends the lines of all requests, in the order of their numbers.
pub(crate) fn write_requests(
    out: &mut Text,
    names: &Topology,
    node: NodeId,
    desk: &Desk,
) -> Result<(), OutOfMemory>
    ensures { OnOk result (out.new ≡ out.old ++ request_lines names.now node desk.now) }
{
    for place in 0..desk.standing() {
        write_request_at(out, names, node, desk, place)?;
    }
    Ok(())
}
