//! *Counting*: which flows are offered a label (the policy of Newman, Minshall and Lyon).

ghost use Rattle.std.specs.Prelude.{◌≡◌, ℕ, option_map, IsSome, IfSome, OnOk, None, Some};
ghost use Rattle.ipv4_packet.specs.Packet.{IsPacket};
ghost use Rattle.port_model.specs.Counts.{packets_in};
ghost use Rattle.port_model.specs.Labels.{Label, label_for, label_number, lowest_spare};
ghost use Rattle.port_model.specs.Port.{Session, label_at, labels_of};
ghost use Rattle.port_model.specs.Counting.{counts, counts_by, offers, packet_flow, wires};
ghost use Rattle.port_state.specs.Engine.{setup_of};
ghost use Rattle.port_saying.specs.Rules.{begun};

use branch_desk::Desk;
use flow_classifier::Policy;
use gsmp_wire::Request;
use ipv4_packet::{FlowId, FlowKind, of_packet};
use net_types::OutOfMemory;
use port_actions::Actions;
use port_model::Action;
use port_saying::has_room;
use port_state::PortState;

/// A packet's flow: of type 1 where it can be, else of type 2; at Time To Live 0 it has none.
fn packet_flow(packet: &[u8]) -> Option<FlowId>
    requires { IsPacket packet.now }
    ensures { result ≡ packet_flow packet.now }
{
    match of_packet(FlowKind::One, packet) {
        Some(flow) => Some(flow),
        None => of_packet(FlowKind::Two, packet),
    }
}

/// A packet has come on the default channel: it is counted, and a long flow gets a label.
pub(crate) fn count_packet<P: Policy>(
    state: &mut PortState<P>,
    packet: &[u8],
    desk: &Desk,
    out: &mut Actions,
) -> Result<(), OutOfMemory>
    requires { IsPacket packet.now }
    ensures fixed { state.new.fixed ≡ state.old.fixed }
    ensures work { (n : ℕ) → OnOk result (counts (setup_of P.meaning state.old.fixed) desk.now (begun state.old.port out.old n) packet.now ≡ begun state.new.port out.new n) }
{
    match packet_flow(packet) {
        Some(flow) => count(state, flow, desk, out),
        None => Ok(()),
    }
}

/// A packet of a flow is counted. One that a label serves isn't counted: the label is in use.
fn count<P: Policy>(
    state: &mut PortState<P>,
    flow: FlowId,
    desk: &Desk,
    out: &mut Actions,
) -> Result<(), OutOfMemory>
    ensures fixed { state.new.fixed ≡ state.old.fixed }
    ensures work { (n : ℕ) → OnOk result (counts_by (setup_of P.meaning state.old.fixed) desk.now (begun state.old.port out.old n) state.old.port.session (Some flow) ≡ begun state.new.port out.new n) }
{
    if !state.has_session() {
        return Ok(());
    }
    if let Some(number) = serving(state, &flow) {
        state.set_idle(number, 0);
        return Ok(());
    }
    let packets = state.count(flow)?;
    offer(state, flow, packets, desk, out)
}

/// The number of the label that serves the flow, by which it is found.
fn serving<P: Policy>(state: &PortState<P>, flow: &FlowId) -> Option<u16>
    ensures number { result ≡ option_map label_number (label_for (labels_of state.now.port) flow.now) }
    ensures found { (label : Label) → label_for (labels_of state.now.port) flow.now ≡ Some label → label_at state.now.port label.number ≡ Some label }
{
    // the numbers of the labels rise
    if let Some(book) = state.labels() {
        book.is_in_order();
    }
    state.serving(flow)
}

/// A label is taken for a flow where the policy offers one and fewer than 1,024 requests will stand.
fn offer<P: Policy>(
    state: &mut PortState<P>,
    flow: FlowId,
    packets: u32,
    desk: &Desk,
    out: &mut Actions,
) -> Result<(), OutOfMemory>
    requires open { IsSome state.old.port.session }
    requires packets { IfSome state.old.port.session (λ s. packets ≡ packets_in s.counted flow) }
    requires unserved { label_for (labels_of state.old.port) flow ≡ None }
    ensures fixed { state.new.fixed ≡ state.old.fixed }
    ensures work { (n : ℕ) (s : Session) → state.old.port.session ≡ Some s → OnOk result (offers (setup_of P.meaning state.old.fixed) desk.now (begun state.old.port out.old n) s flow ≡ begun state.new.port out.new n) }
{
    if !state.offers(&flow, packets) {
        return Ok(());
    }
    if !has_room(state.alloc(), desk, out)? {
        return Ok(());
    }
    wire(state, flow, out)
}

/// The lowest spare label is taken for a flow, and its branch to the controller is asked.
fn wire<P: Policy>(
    state: &mut PortState<P>,
    flow: FlowId,
    out: &mut Actions,
) -> Result<(), OutOfMemory>
    requires open { IsSome state.old.port.session }
    requires unserved { label_for (labels_of state.old.port) flow ≡ None }
    ensures fixed { state.new.fixed ≡ state.old.fixed }
    ensures work { (n : ℕ) (s : Session) → state.old.port.session ≡ Some s → OnOk result (wires (setup_of P.meaning state.old.fixed) (begun state.old.port out.old n) flow (lowest_spare (setup_of P.meaning state.old.fixed) s.least s.greatest s.labels) ≡ begun state.new.port out.new n) }
{
    let Some(number) = state.take_label(flow)? else {
        return Ok(());
    };
    let request = Request::AddBranch {
        input: state.label_end(number),
        output: state.control_end(number),
    };
    out.push(Action::Ask {
        request,
        needed: false,
    })
}
