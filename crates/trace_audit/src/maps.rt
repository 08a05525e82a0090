//! What is kept by port, by label and by mark.

ghost use Rattle.std.specs.Prelude.{◌≡◌, None, Some, OnOk, if◌then◌else◌};
ghost use Rattle.std.specs.Option.{option_or};
ghost use Rattle.indexmap.specs.IndexMap.{get};
ghost use Rattle.link_model.specs.Ledger.{same_mark};
ghost use Rattle.net_types.specs.declared.number.Mark.{Mark};
ghost use Rattle.trace_model.specs.declared.end.TraceEnd.{TraceEnd};
ghost use Rattle.trace_model.specs.declared.end.TraceLabel.{TraceLabel};
ghost use Rattle.trace_model.specs.Ends.{same_end, same_label};
ghost use Rattle.trace_audit.specs.Flows.{bound_in};

use crate::flows::LabelFlow;
use indexmap::IndexMap;
use net_types::{Mark, Octets, OutOfMemory};
use trace_model::{TraceEnd, TraceLabel};

/// A map of links: the other end of each port's link.
pub type Peers = IndexMap<TraceEnd, TraceEnd>;

/// A map of label bindings: the flow of each channel at the port that its cells come to.
pub type Flows = IndexMap<TraceLabel, LabelFlow>;

/// A map of frames: the payload of each mark's frame.
pub type Payloads = IndexMap<Mark, Octets>;

/// A map of first puts: where the first cell of each mark was put.
pub type Firsts = IndexMap<Mark, TraceLabel>;

/// Keeps the other end of a port's link.
pub fn set_peer(peers: &mut Peers, end: TraceEnd, peer: TraceEnd) -> Result<(), OutOfMemory>
    ensures { OnOk result ((at : TraceEnd) → get same_end peers.new at ≡ (if same_end end at then Some peer else get same_end peers.old at)) }
{
    peers.insert(end, peer)?;
    Ok(())
}

/// Keeps the flow of a channel, in place of an earlier one.
pub fn set_flow(flows: &mut Flows, label: TraceLabel, flow: LabelFlow) -> Result<(), OutOfMemory>
    ensures { OnOk result ((at : TraceLabel) → bound_in flows.new at ≡ (if same_label label at then Some flow else bound_in flows.old at)) }
{
    flows.insert(label, flow)?;
    Ok(())
}

/// Keeps the payload of a mark's frame.
pub fn set_payload(payloads: &mut Payloads, mark: Mark, payload: Octets) -> Result<(), OutOfMemory>
    ensures { OnOk result ((of : Mark) → get same_mark payloads.new of ≡ (if same_mark mark of then Some payload else get same_mark payloads.old of)) }
{
    payloads.insert(mark, payload)?;
    Ok(())
}

/// Keeps where the first cell of a mark was put.
pub fn set_first(firsts: &mut Firsts, mark: Mark, place: TraceLabel) -> Result<(), OutOfMemory>
    ensures { OnOk result ((of : Mark) → get same_mark firsts.new of ≡ option_or (get same_mark firsts.old of) (if same_mark mark of then Some place else None)) }
{
    if firsts.contains_key(&mark) {
        return Ok(());
    }
    firsts.insert(mark, place)?;
    Ok(())
}
