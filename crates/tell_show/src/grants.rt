//! The grants of a port.

ghost use Rattle.std.specs.Prelude.{◌≡◌, ◌++◌, slice_get, OnOk, Some};
ghost use Rattle.port_model.specs.Grants.{Grant};
ghost use Rattle.show_text.specs.Port.{grant_line, grant_lines};

use grant_table::GrantTable;
use lab_text::Text;
use net_types::{NodeId, OutOfMemory, PortNo};
use show_text::write_grant;
use topology::Topology;

/// Appends the line of the grant at an index in the order of acceptance, from 0.
fn write_grant_at(
    out: &mut Text,
    names: &Topology,
    node: NodeId,
    port: PortNo,
    grants: &GrantTable,
    place: usize,
) -> Result<(), OutOfMemory>
    ensures { (grant : Grant) → slice_get grants.now.grants place ≡ Some grant → OnOk result (out.new ≡ out.old ++ grant_line names.now node port grant) }
{
    match grants.view_at(place) {
        Some(grant) => write_grant(out, names, node, port, &grant),
        None => Ok(()),
    }
}

/// Appends the lines of all grants, in the order of acceptance.
pub(crate) fn write_grants(
    out: &mut Text,
    names: &Topology,
    node: NodeId,
    port: PortNo,
    grants: &GrantTable,
) -> Result<(), OutOfMemory>
    ensures { OnOk result (out.new ≡ out.old ++ grant_lines names.now node port grants.now.grants) }
{
    for place in 0..grants.len() {
        write_grant_at(out, names, node, port, grants, place)?;
    }
    Ok(())
}
