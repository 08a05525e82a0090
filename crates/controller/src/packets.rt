//! *Packets* and messages: what a frame that passed its test holds, by the channel on which it came.

ghost use Rattle.std.specs.Prelude.{◌≡◌, ℕ, List, drop, IsSome, None, Ok, OnOk, Some};
ghost use Rattle.net_types.specs.Number.{GivenOut};
ghost use Rattle.ipv4_packet.specs.Packet.{IsPacket, first_fault, source_of};
ghost use Rattle.flow_encaps.specs.Unwrapped.{default_unwrapped, unwrapped};
ghost use Rattle.ipv4_packet.specs.declared.flow.FlowId.{FlowId as FlowValue};
ghost use Rattle.ipv4_packet.specs.Flow.{IsFlow};
ghost use Rattle.ifmp_wire.specs.Fields.{decoded as ifmp_decoded};
ghost use Rattle.ifmp_wire.specs.Message.{InRange};
ghost use Rattle.ifmp_wire.specs.declared.message.Message.{Message as IfmpValue};
ghost use Rattle.gsmp_wire.specs.Fields.{decoded as gsmp_decoded};
ghost use Rattle.gsmp_wire.specs.declared.message.Message.{Message as GsmpValue};
ghost use Rattle.link_model.specs.declared.record.Record.TheVariants.{Bad};
ghost use Rattle.port_model.specs.Labels.{Label};
ghost use Rattle.world_model.specs.Controller.{Linked, note};
ghost use Rattle.world_model.specs.Cells.{counted_at, default_holds, ifmp_holds, label_holds, packet_holds};
ghost use Rattle.world_model.specs.Gsmp.{gsmp_holds};
ghost use Rattle.world_model.specs.Packets.{forwards_packet};
ghost use Rattle.controller_joining.specs.Answers.{CanBeTold};
ghost use Rattle.controller_joining.specs.Conditions.{CanWorkOn};
ghost use Rattle.controller_joining.specs.Joining.{AreJoined, acted, controller_of};
ghost use Rattle.law_joining_conditions.specs.law_controller_conditions.Calls.{counting, hearing};
ghost use Rattle.law_joining_conditions.specs.Cells.{CanHoldPacket};
ghost use Rattle.controller.specs.Frames.{MayCome, flow_on, used_at};

use controller_joining::JoiningRouter;
use controller_router::PortEngine;
use flow_encaps::{unwrap_default, unwrap_flow};
use ipv4_packet::{IFMP_PROTOCOL, MAX_PACKET, check, protocol, source};
use link_model::{Layer, Notes, Record, Refusal};
use net_types::{Mark, Numbers, OutOfMemory, PortNo};
use refusal_names::{encaps_refusal, gsmp_refusal, ifmp_refusal, packet_refusal};

/// Notes why something that came is refused.
fn refuse<E: PortEngine>(
    router: &JoiningRouter<E>,
    layer: Layer,
    name: Refusal,
    notes: &mut Notes,
) -> Result<(), OutOfMemory>
    ensures { (numbers : GivenOut) → OnOk result (acted E.seen router.now notes.new numbers ≡ note (acted E.seen router.now notes.old numbers) (Bad (controller_of E.seen router.now).node layer name)) }
{
    notes.push(Record::Bad {
        node: router.router().node(),
        layer,
        name,
    })
}

/// Takes the message that a frame of the GSMP channel holds, or notes why it holds none.
pub(crate) fn hear_switch<E: PortEngine>(
    router: &mut JoiningRouter<E>,
    payload: &[u8],
    numbers: &mut Numbers,
    notes: &mut Notes,
) -> Result<(), OutOfMemory>
    requires joined { AreJoined E.seen router.old }
    requires can { (message : GsmpValue) → gsmp_decoded payload.now ≡ Ok message → CanBeTold (acted E.seen router.old notes.old numbers.old) message }
    ensures acted { OnOk result (acted E.seen router.new notes.new numbers.new ≡ gsmp_holds (acted E.seen router.old notes.old numbers.old) (gsmp_decoded payload.now)) }
    ensures joined { OnOk result (AreJoined E.seen router.new) }
{
    match gsmp_wire::decode(payload) {
        Ok(message) => router.tell(&message, numbers, notes),
        Err(fault) => refuse(router, Layer::Gsmp, gsmp_refusal(fault), notes),
    }
}

/// A packet of IFMP comes from the other end of a port's link.
fn hear_peer<E: PortEngine>(
    router: &mut JoiningRouter<E>,
    port: PortNo,
    packet: &[u8],
    numbers: &mut Numbers,
    notes: &mut Notes,
) -> Result<(), OutOfMemory>
    requires joined { AreJoined E.seen router.old }
    requires packet { IsPacket packet.now }
    requires can { (message : IfmpValue) → ifmp_decoded (drop 20 packet.now) ≡ Ok message → InRange message → CanWorkOn (acted E.seen router.old notes.old numbers.old) port (hearing (source_of packet.now) message) }
    ensures acted { OnOk result (acted E.seen router.new notes.new numbers.new ≡ ifmp_holds (acted E.seen router.old notes.old numbers.old) port packet.now (ifmp_decoded (drop 20 packet.now))) }
    ensures joined { OnOk result (AreJoined E.seen router.new) }
{
    match ifmp_wire::decode(&packet[20..]) {
        Ok(message) => router.hear(port, source(packet), &message, numbers, notes),
        Err(fault) => refuse(router, Layer::Ifmp, ifmp_refusal(fault), notes),
    }
}

/// A packet of a port's default channel that isn't one of IFMP is forwarded, and then counted.
fn pass_on<E: PortEngine>(
    router: &mut JoiningRouter<E>,
    port: PortNo,
    mark: Mark,
    packet: &[u8],
    numbers: &mut Numbers,
    notes: &mut Notes,
) -> Result<(), OutOfMemory>
    requires may { MayCome E.seen router.old notes.old numbers.old mark }
    requires packet { IsPacket packet.now }
    requires can { CanWorkOn (forwards_packet (acted E.seen router.old notes.old numbers.old) mark packet.now) port (counting packet.now) }
    ensures acted { OnOk result (acted E.seen router.new notes.new numbers.new ≡ counted_at (forwards_packet (acted E.seen router.old notes.old numbers.old) mark packet.now) port packet.now) }
    ensures joined { OnOk result (AreJoined E.seen router.new) }
{
    router.route(mark, packet, numbers, notes)?;
    router.count(port, packet, numbers, notes)
}

/// What stands behind the header of the default encapsulation: a message of IFMP is heard, any other
/// packet goes on, and what is no packet is noted.
fn take_packet<E: PortEngine>(
    router: &mut JoiningRouter<E>,
    port: PortNo,
    mark: Mark,
    packet: &[u8],
    numbers: &mut Numbers,
    notes: &mut Notes,
) -> Result<(), OutOfMemory>
    requires may { MayCome E.seen router.old notes.old numbers.old mark }
    requires can { first_fault packet.now ≡ None → CanHoldPacket (acted E.seen router.old notes.old numbers.old) port mark packet.now }
    ensures acted { OnOk result (acted E.seen router.new notes.new numbers.new ≡ packet_holds (acted E.seen router.old notes.old numbers.old) port mark packet.now (first_fault packet.now)) }
    ensures joined { OnOk result (AreJoined E.seen router.new) }
{
    if let Err(fault) = check(packet) {
        return refuse(router, Layer::Packet, packet_refusal(fault), notes);
    }
    if protocol(packet) == IFMP_PROTOCOL {
        return hear_peer(router, port, packet, numbers, notes);
    }
    pass_on(router, port, mark, packet, numbers, notes)
}

/// A frame of a default channel: a packet behind the header of the default encapsulation.
pub(crate) fn take_default<E: PortEngine>(
    router: &mut JoiningRouter<E>,
    port: PortNo,
    mark: Mark,
    payload: &[u8],
    numbers: &mut Numbers,
    notes: &mut Notes,
) -> Result<(), OutOfMemory>
    requires may { MayCome E.seen router.old notes.old numbers.old mark }
    requires can { (packet : List ℕ) → default_unwrapped payload.now ≡ Ok packet → first_fault packet ≡ None → CanHoldPacket (acted E.seen router.old notes.old numbers.old) port mark packet }
    ensures acted { OnOk result (acted E.seen router.new notes.new numbers.new ≡ default_holds (acted E.seen router.old notes.old numbers.old) port mark (default_unwrapped payload.now)) }
    ensures joined { OnOk result (AreJoined E.seen router.new) }
{
    match unwrap_default(payload) {
        Ok(packet) => take_packet(router, port, mark, packet, numbers, notes),
        Err(fault) => refuse(router, Layer::Encaps, encaps_refusal(fault), notes),
    }
}

/// A packet that was rebuilt with the flow of a label is forwarded, and the label is in use.
fn take_rebuilt<E: PortEngine>(
    router: &mut JoiningRouter<E>,
    port: PortNo,
    label: u16,
    mark: Mark,
    packet: &[u8],
    numbers: &mut Numbers,
    notes: &mut Notes,
) -> Result<(), OutOfMemory>
    requires may { MayCome E.seen router.old notes.old numbers.old mark }
    requires packet { IsPacket packet.now }
    requires bound { IsSome (flow_on (controller_of E.seen router.old) port label) }
    ensures acted { OnOk result (acted E.seen router.new notes.new numbers.new ≡ used_at (forwards_packet (acted E.seen router.old notes.old numbers.old) mark packet.now) port label) }
    ensures joined { OnOk result (AreJoined E.seen router.new) }
{
    router.route(mark, packet, numbers, notes)?;
    router.use_label(port, label);
    Ok(())
}

/// A frame of a label's channel: its packet is rebuilt with the flow of the binding and forwarded, and the
/// label is in use.
pub(crate) fn take_labelled<E: PortEngine>(
    router: &mut JoiningRouter<E>,
    port: PortNo,
    label: u16,
    mark: Mark,
    payload: &[u8],
    numbers: &mut Numbers,
    notes: &mut Notes,
) -> Result<(), OutOfMemory>
    requires may { MayCome E.seen router.old notes.old numbers.old mark }
    requires flows { (flow : FlowValue) → flow_on (controller_of E.seen router.old) port label ≡ Some flow → IsFlow flow }
    ensures acted { (linked : Linked) (held : Label) → linked.setup.port ≡ port → held.number ≡ label → flow_on (controller_of E.seen router.old) port label ≡ Some held.flow → OnOk result (acted E.seen router.new notes.new numbers.new ≡ label_holds (acted E.seen router.old notes.old numbers.old) linked held mark (unwrapped held.flow payload.now)) }
    ensures joined { OnOk result (AreJoined E.seen router.new) }
{
    let Some(flow) = router.router().flow_of(port, label) else {
        return Ok(());
    };
    let mut octets = [0; MAX_PACKET];
    match unwrap_flow(&flow, payload, &mut octets) {
        Ok(len) => take_rebuilt(router, port, label, mark, &octets[..len], numbers, notes),
        Err(fault) => refuse(router, Layer::Encaps, encaps_refusal(fault), notes),
    }
}
