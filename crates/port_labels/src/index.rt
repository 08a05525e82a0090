//! The numbers of the labels that are held, in order, and the label of each flow.

ghost use Rattle.std.specs.Prelude.{◌≡◌, ◌<◌, nat_le, slice_get, OnOk, OnErr};
ghost use Rattle.std.specs.Vec.{vec_capacity, vec_len};
ghost use Rattle.keyed_lists.specs.Keyed.{entered, without};
ghost use Rattle.port_labels.specs.Index.{AreAscending, IsEntered, IsRemoved};

use ipv4_packet::FlowId;
use net_types::OutOfMemory;
use std::collections::HashMap;

/// The number of the label that serves each flow.
pub(crate) type Flows = HashMap<FlowId, u16>;

/// The number at an index; none exactly where the index is at or above the length.
pub(crate) fn number_at(numbers: &[u16], place: usize) -> Option<u16>
    ensures { result ≡ slice_get numbers.now place }
{
    if place >= numbers.len() {
        return None;
    }
    Some(numbers[place])
}

/// Enters a number that isn't there.
fn enter_number(numbers: &mut Vec<u16>, label: u16)
    requires rising { AreAscending numbers.old.items }
    requires room { vec_len numbers.old < vec_capacity numbers.old }
    ensures { numbers.new.items ≡ entered nat_le label numbers.old.items }
{
    let place = match numbers.binary_search(&label) {
        Ok(place) => place,
        Err(place) => place,
    };
    let Ok(()) = numbers.insert(place, label) else {
        unreachable!()
    };
}

/// Takes a number away.
pub(crate) fn remove_number(numbers: &mut Vec<u16>, label: u16)
    requires { AreAscending numbers.old.items }
    ensures { numbers.new.items ≡ without (λ n. n) label numbers.old.items }
{
    if let Ok(place) = numbers.binary_search(&label) {
        numbers.remove(place);
    }
}

/// Enters a number that isn't there, as that of the label that serves a flow which none serves. Want
/// of memory changes nothing.
pub(crate) fn enter(
    numbers: &mut Vec<u16>,
    flows: &mut Flows,
    label: u16,
    flow: FlowId,
) -> Result<(), OutOfMemory>
    requires { AreAscending numbers.old.items }
    ensures numbers { OnOk result (numbers.new.items ≡ entered nat_le label numbers.old.items) }
    ensures numbers_same { OnErr result (numbers.new.items ≡ numbers.old.items) }
    ensures flows { OnOk result (IsEntered flows.old.entries flows.new.entries flow label) }
    ensures flows_same { OnErr result (flows.new.entries ≡ flows.old.entries) }
{
    numbers.reserve(1)?;
    flows.insert(flow, label)?;
    enter_number(numbers, label);
    Ok(())
}

/// Takes the entry of a flow away.
pub(crate) fn remove_flow(flows: &mut Flows, flow: FlowId)
    ensures { IsRemoved flows.old.entries flows.new.entries flow }
{
    flows.remove(&flow);
}
