//! *Forwarding* (RFC 1812 5.2.1): a packet at the node is delivered, dropped, or sent on, under a grant's
//! label where its flow has one.

ghost use Rattle.std.specs.Prelude.{◌≡◌, ◌≤◌, ◌<◌, ◌+◌, ◌^◌, true, IfSome, IsTrue, None, OnOk, Some, if◌then◌else◌, option_map, length, take};
ghost use Rattle.net_types.specs.declared.node.PortNo.{PortNo as PortNoValue};
ghost use Rattle.net_types.specs.Label.{is_label_number};
ghost use Rattle.net_types.specs.Number.{GivenOut, next_control, with_control};
ghost use Rattle.ipv4_packet.specs.Packet.{IsPacket};
ghost use Rattle.ipv4_forward.specs.declared.outcome.Hop.TheVariants.{On};
ghost use Rattle.ipv4_forward.specs.Hop.{hop_of};
ghost use Rattle.crossbar_model.specs.Channels.{IsLinkPort};
ghost use Rattle.ipv4_packet.specs.Flow.{flow_of, kind_of};
ghost use Rattle.frame_model.specs.Frame.{next_mark};
ghost use Rattle.port_model.specs.Grants.{grant_matching, grant_of_kind};
ghost use Rattle.world_model.specs.Packets.{forwarded, grant_by, injected, is_control, forwards_packet};
ghost use Rattle.world_model.specs.Sending.{sends};
ghost use Rattle.controller_router.specs.Node.{acted, controller_of};
ghost use Rattle.controller_router.specs.Packets.{granted, payload_by, shown, way_by};

use crate::engine::PortEngine;
use crate::router::Router;
use controller_gsmp::{default_end, home_of, label_end};
use flow_encaps::{wrap_default, wrap_flow};
use grant_table::GrantTable;
use ipv4_forward::{Hop, hop};
use ipv4_packet::{FlowId, FlowKind, MAX_PACKET, of_packet};
use link_model::{DropCause, Notes, Record};
use net_types::{Channel, Mark, Numbers, Octets, OutOfMemory, PortNo};

/// The greatest short packet, in octets: on a default channel its frame has at most four cells.
const SHORT_PACKET: usize = 176;

/// A grant under which a packet is sent.
#[derive(Clone, Copy, Debug)]
struct Permit {
    /// The number of its label.
    number: u16,
    /// The packet's flow, which is its flow.
    flow: FlowId,
}

/// The mark of the next frame of a packet. One that came out of a control frame, whose numbers begin at
/// 1, goes on in a control frame.
fn next_mark(came: Mark, numbers: &mut Numbers) -> Mark
    requires frame { came.frame < 2 ^ 63 }
    requires numbers { is_control came ≡ true → numbers.old.controls + 1 < 2 ^ 64 }
    ensures mark { result ≡ (if is_control came then next_control numbers.old else next_mark came) }
    ensures numbers { numbers.new ≡ (if is_control came then with_control numbers.old else numbers.old) }
{
    if came.packet == 0 && came.frame > 0 {
        return numbers.control();
    }
    Mark {
        packet: came.packet,
        frame: came.frame + 1,
    }
}

/// The grant under which a packet is sent by its flow of this kind.
fn permit_of(grants: &GrantTable, kind: FlowKind, packet: &[u8]) -> Option<Permit>
    requires { IsPacket packet.now }
    ensures permit { option_map shown result ≡ option_map granted (grant_of_kind grants.now.grants kind packet.now) }
    ensures flow { IfSome result (λ permit. flow_of (kind_of permit.flow) packet.now ≡ Some permit.flow) }
    ensures label { IfSome result (λ permit. IsTrue (is_label_number permit.number)) }
{
    let flow = of_packet(kind, packet)?;
    let number = grants.by_flow(&flow)?;
    Some(Permit { number, flow })
}

/// The grant under which a packet is sent.
fn permit_by(grants: &GrantTable, packet: &[u8]) -> Option<Permit>
    requires { IsPacket packet.now }
    ensures permit { option_map shown result ≡ option_map granted (grant_matching grants.now.grants packet.now) }
    ensures flow { IfSome result (λ permit. flow_of (kind_of permit.flow) packet.now ≡ Some permit.flow) }
    ensures label { IfSome result (λ permit. IsTrue (is_label_number permit.number)) }
{
    match permit_of(grants, FlowKind::One, packet) {
        Some(permit) => Some(permit),
        None => permit_of(grants, FlowKind::Two, packet),
    }
}

/// The channel by which a packet is sent on by a port: that of a grant's label, or the default channel.
fn channel_by(port: PortNo, permit: Option<Permit>) -> Channel
    requires port { (1 ≤ port.0) × (port.0 ≤ 8) }
    requires label { IfSome permit (λ permit. IsTrue (is_label_number permit.number)) }
    ensures { result ≡ (way_by port (option_map shown permit)).channel }
{
    match permit {
        None => home_of(default_end(port)).channel,
        Some(permit) => home_of(label_end(port, permit.number)).channel,
    }
}

/// Writes the payload in which a packet is sent on, under a grant or on a default channel, to the front of
/// `room`, and gives its length in octets.
fn wrap(permit: Option<Permit>, packet: &[u8], room: &mut [u8]) -> usize
    requires packet { IsPacket packet.now }
    requires room { length packet.now + 8 ≤ length room.old }
    requires flow { IfSome permit (λ permit. flow_of (kind_of permit.flow) packet.now ≡ Some permit.flow) }
    ensures payload { take result room.new ≡ payload_by packet.now (option_map shown permit) }
    ensures size { (1 ≤ result) × (result ≤ length packet.now + 8) }
    ensures room { length room.new ≡ length room.old }
{
    match permit {
        None => wrap_default(packet, room),
        Some(permit) => wrap_flow(&permit.flow, packet, room),
    }
}

impl<E: PortEngine> Router<E> {
    /// The grant of a port under which a packet is sent on there.
    fn permit_for(&self, port: PortNo, packet: &[u8]) -> Option<Permit>
        requires { IsPacket packet.now }
        ensures permit { option_map shown result ≡ option_map granted (grant_by (controller_of E.seen self.now) port packet.now) }
        ensures flow { IfSome result (λ permit. flow_of (kind_of permit.flow) packet.now ≡ Some permit.flow) }
        ensures label { IfSome result (λ permit. IsTrue (is_label_number permit.number)) }
    {
        match self.place_of(port) {
            Some(place) => permit_by(self.links[place].grants(), packet),
            None => None,
        }
    }

    /// Sends a packet on by a port, in a frame of this mark, whose payload is made in `room`: under a
    /// grant's label, or on the default channel.
    fn go_by(
        &mut self,
        mark: Mark,
        port: PortNo,
        packet: &[u8],
        room: &mut [u8],
        notes: &mut Notes,
    ) -> Result<(), OutOfMemory>
        requires port { (1 ≤ port.0) × (port.0 ≤ 8) }
        requires packet { IsPacket packet.now }
        requires room { length packet.now + 8 ≤ length room.old }
        ensures acted { (numbers : GivenOut) → OnOk result (acted E.seen self.new notes.new numbers ≡ sends (acted E.seen self.old notes.old numbers) (way_by port (option_map granted (grant_by (controller_of E.seen self.old) port packet.now))).channel mark (payload_by packet.now (option_map granted (grant_by (controller_of E.seen self.old) port packet.now)))) }
        ensures links { self.new.links ≡ self.old.links }
    {
        let permit = self.permit_for(port, packet);
        let channel = channel_by(port, permit);
        let len = wrap(permit, packet, room);
        self.send(channel, mark, &room[..len], notes)
    }

    /// Sends a packet on by a port, in a frame of this mark: under a grant's label, or on the default
    /// channel.
    fn go_on(
        &mut self,
        mark: Mark,
        port: PortNo,
        packet: &[u8],
        notes: &mut Notes,
    ) -> Result<(), OutOfMemory>
        requires port { (1 ≤ port.0) × (port.0 ≤ 8) }
        requires packet { IsPacket packet.now }
        ensures acted { (numbers : GivenOut) → OnOk result (acted E.seen self.new notes.new numbers ≡ sends (acted E.seen self.old notes.old numbers) (way_by port (option_map granted (grant_by (controller_of E.seen self.old) port packet.now))).channel mark (payload_by packet.now (option_map granted (grant_by (controller_of E.seen self.old) port packet.now)))) }
        ensures links { self.new.links ≡ self.old.links }
    {
        if packet.len() <= SHORT_PACKET {
            self.go_by(mark, port, packet, &mut [0; 8 + SHORT_PACKET], notes)
        } else {
            self.go_by(mark, port, packet, &mut [0; 8 + MAX_PACKET], notes)
        }
    }

    /// A packet that came in a frame of this mark is delivered here or dropped.
    fn stop(
        &self,
        came: Mark,
        hop: Hop,
        packet: &[u8],
        notes: &mut Notes,
    ) -> Result<(), OutOfMemory>
        requires { (q : PortNoValue) → hop ≡ On q → ⊥ }
        ensures { (numbers : GivenOut) → OnOk result (acted E.seen self.now notes.new numbers ≡ forwarded (acted E.seen self.now notes.old numbers) came packet.now hop) }
    {
        let cause = match hop {
            Hop::Here => {
                let octets = Octets::new(packet.to_vec(self.alloc)?);
                return notes.push(Record::Delivered {
                    node: self.node,
                    packet: came.packet,
                    octets,
                });
            }
            Hop::NoRoute => DropCause::NoRoute,
            _expired => DropCause::Expired,
        };
        notes.push(Record::Dropped {
            node: self.node,
            packet: came.packet,
            cause,
        })
    }

    /// Forwards a packet that came in a frame of this mark, with the step of its Time To Live.
    fn forward(
        &mut self,
        came: Mark,
        packet: &mut [u8],
        numbers: &mut Numbers,
        notes: &mut Notes,
    ) -> Result<(), OutOfMemory>
        requires packet { IsPacket packet.old }
        requires frame { came.frame < 2 ^ 63 }
        requires port { (port : PortNoValue) → hop_of self.old.routes.table packet.old ≡ On port → IsLinkPort port }
        requires mark { is_control came ≡ true → numbers.old.controls + 1 < 2 ^ 64 }
        ensures acted { OnOk result (acted E.seen self.new notes.new numbers.new ≡ forwards_packet (acted E.seen self.old notes.old numbers.old) came packet.old) }
        ensures links { self.new.links ≡ self.old.links }
    {
        match hop(self.routes.table(), packet) {
            Hop::On(port) => {
                let mark = next_mark(came, numbers);
                self.go_on(mark, port, packet, notes)
            }
            hop => self.stop(came, hop, packet, notes),
        }
    }

    /// Forwards a packet that enters here, with the step of its Time To Live.
    fn admit(
        &mut self,
        number: u32,
        packet: &mut [u8],
        notes: &mut Notes,
    ) -> Result<(), OutOfMemory>
        requires packet { IsPacket packet.old }
        requires port { (port : PortNoValue) → hop_of self.old.routes.table packet.old ≡ On port → IsLinkPort port }
        ensures acted { (numbers : GivenOut) → OnOk result (acted E.seen self.new notes.new numbers ≡ injected (acted E.seen self.old notes.old numbers) number packet.old) }
        ensures links { self.new.links ≡ self.old.links }
    {
        match hop(self.routes.table(), packet) {
            Hop::On(port) => {
                let mark = Mark {
                    packet: number,
                    frame: 1,
                };
                self.go_on(mark, port, packet, notes)
            }
            hop => {
                let came = Mark {
                    packet: number,
                    frame: 0,
                };
                self.stop(came, hop, packet, notes)
            }
        }
    }

    /// Forwards a packet that came in a frame of this mark.
    pub fn route(
        &mut self,
        came: Mark,
        packet: &[u8],
        numbers: &mut Numbers,
        notes: &mut Notes,
    ) -> Result<(), OutOfMemory>
        requires packet { IsPacket packet.now }
        requires frame { came.frame < 2 ^ 63 }
        requires port { (port : PortNoValue) → hop_of self.old.routes.table packet.now ≡ On port → IsLinkPort port }
        requires mark { is_control came ≡ true → numbers.old.controls + 1 < 2 ^ 64 }
        ensures acted { OnOk result (acted E.seen self.new notes.new numbers.new ≡ forwards_packet (acted E.seen self.old notes.old numbers.old) came packet.now) }
        ensures links { self.new.links ≡ self.old.links }
    {
        let mut octets = packet.to_vec(self.alloc)?;
        self.forward(came, &mut octets, numbers, notes)
    }

    /// Forwards a packet that enters here, under this number: its first frame is number 1.
    pub fn enter(
        &mut self,
        number: u32,
        packet: &[u8],
        notes: &mut Notes,
    ) -> Result<(), OutOfMemory>
        requires packet { IsPacket packet.now }
        requires port { (port : PortNoValue) → hop_of self.old.routes.table packet.now ≡ On port → IsLinkPort port }
        ensures acted { (numbers : GivenOut) → OnOk result (acted E.seen self.new notes.new numbers ≡ injected (acted E.seen self.old notes.old numbers) number packet.now) }
        ensures links { self.new.links ≡ self.old.links }
    {
        let mut octets = packet.to_vec(self.alloc)?;
        self.admit(number, &mut octets, notes)
    }
}
