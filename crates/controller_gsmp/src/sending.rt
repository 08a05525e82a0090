//! *Sending*: a frame is cut into cells that join the queue to the switch, all of them or none.

ghost use Rattle.std.specs.Prelude.{◌≡◌, ◌≤◌, ◌<◌, ◌+◌, ◌^◌, length, All, OnOk};
ghost use Rattle.net_types.specs.Number.{GivenOut, with_control};
ghost use Rattle.gsmp_wire.specs.Range.{Bits, IsInRange};
ghost use Rattle.gsmp_wire.specs.declared.message.Message.TheVariants as messages;
ghost use Rattle.ifmp_wire.specs.Message.{InRange};
ghost use Rattle.world_model.specs.Sending.{says_gsmp, says_ifmp, sends, sends_control};
ghost use Rattle.controller_gsmp.specs.Client.{AreOneNode, Router, acted};

use crate::client::Client;
use crate::ends::{default_end, home_of};
use flow_encaps::wrap_default;
use frame_model::send_frame;
use gsmp_wire::{MAX_MESSAGE, Message as GsmpMessage};
use ifmp_wire::Message as IfmpMessage;
use ipv4_packet::ifmp_packet;
use link_model::Notes;
use net_types::{Addr, Channel, DEFAULT_CHANNEL, Greeting, Mark, Numbers, OutOfMemory, PortNo};

/// The greatest message of IFMP, in octets; then with the header of its packet, and with the header of
/// the default encapsulation.
const MAX_IFMP: usize = 40;

const MAX_IFMP_PACKET: usize = 60;

const MAX_IFMP_PAYLOAD: usize = 68;

/// What its type says of a name, for the proof of [`Client::greet`]: each octet is one of 8 bits. It does
/// nothing.
fn name_fits(name: &[u8])
    ensures { All (Bits 8) name.now }
{}

impl Client {
    /// Sends a frame of 1 to 1528 octets.
    pub fn send(
        &mut self,
        channel: Channel,
        mark: Mark,
        payload: &[u8],
        notes: &mut Notes,
    ) -> Result<(), OutOfMemory>
        requires { (1 ≤ length payload.now) × (length payload.now ≤ 1528) }
        ensures acted { (r : Router) (numbers : GivenOut) → AreOneNode r self.old → OnOk result (acted r self.new notes.new numbers ≡ sends (acted r self.old notes.old numbers) channel mark payload.now) }
        ensures rest { self.new ≡ record self.old { control = record self.old.control { queue = self.new.control.queue } } }
    {
        send_frame(&mut self.control, (), channel, mark, payload, notes)
    }

    /// Sends the frame of a control message, which has the next control mark.
    fn send_control(
        &mut self,
        channel: Channel,
        payload: &[u8],
        numbers: &mut Numbers,
        notes: &mut Notes,
    ) -> Result<(), OutOfMemory>
        requires payload { (1 ≤ length payload.now) × (length payload.now ≤ 1528) }
        requires numbers { numbers.old.controls + 1 < 2 ^ 64 }
        ensures acted { (r : Router) → AreOneNode r self.old → OnOk result (acted r self.new notes.new numbers.new ≡ sends_control (acted r self.old notes.old numbers.old) channel payload.now) }
        ensures rest { self.new ≡ record self.old { control = record self.old.control { queue = self.new.control.queue } } }
        ensures drawn { numbers.new ≡ with_control numbers.old }
    {
        let mark = numbers.control();
        self.send(channel, mark, payload, notes)
    }

    /// Says a message of GSMP to the switch itself (RFC 1987).
    pub fn say_gsmp(
        &mut self,
        message: &GsmpMessage,
        numbers: &mut Numbers,
        notes: &mut Notes,
    ) -> Result<(), OutOfMemory>
        requires range { IsInRange message.now }
        requires numbers { numbers.old.controls + 1 < 2 ^ 64 }
        ensures acted { (r : Router) → AreOneNode r self.old → OnOk result (acted r self.new notes.new numbers.new ≡ says_gsmp (acted r self.old notes.old numbers.old) message.now) }
        ensures rest { self.new ≡ record self.old { control = record self.old.control { queue = self.new.control.queue } } }
        ensures drawn { numbers.new ≡ with_control numbers.old }
    {
        let mut octets = [0; MAX_MESSAGE];
        let len = gsmp_wire::encode(message, &mut octets);
        self.send_control(DEFAULT_CHANNEL, &octets[..len], numbers, notes)
    }

    /// Says a message of the adjacency.
    pub fn greet(
        &mut self,
        greeting: Greeting,
        numbers: &mut Numbers,
        notes: &mut Notes,
    ) -> Result<(), OutOfMemory>
        requires { numbers.old.controls + 1 < 2 ^ 64 }
        ensures acted { (r : Router) → AreOneNode r self.old → OnOk result (acted r self.new notes.new numbers.new ≡ says_gsmp (acted r self.old notes.old numbers.old) (messages.Adjacency greeting)) }
        ensures rest { self.new ≡ record self.old { control = record self.old.control { queue = self.new.control.queue } } }
        ensures drawn { numbers.new ≡ with_control numbers.old }
    {
        name_fits(&greeting.sender.name);
        name_fits(&greeting.receiver.name);
        self.say_gsmp(&GsmpMessage::Adjacency(greeting), numbers, notes)
    }

    /// Says a message of IFMP to the other end of a port's link, in a packet of its own (RFC 1953) from
    /// the node's address.
    pub fn say_ifmp(
        &mut self,
        source: Addr,
        port: PortNo,
        message: &IfmpMessage,
        numbers: &mut Numbers,
        notes: &mut Notes,
    ) -> Result<(), OutOfMemory>
        requires port { (1 ≤ port.0) × (port.0 ≤ 8) }
        requires range { InRange message.now }
        requires numbers { numbers.old.controls + 1 < 2 ^ 64 }
        ensures acted { (r : Router) → AreOneNode r self.old → r.address ≡ source → OnOk result (acted r self.new notes.new numbers.new ≡ says_ifmp port (acted r self.old notes.old numbers.old) message.now) }
        ensures rest { self.new ≡ record self.old { control = record self.old.control { queue = self.new.control.queue } } }
        ensures drawn { numbers.new ≡ with_control numbers.old }
    {
        let mut octets = [0; MAX_IFMP];
        let len = ifmp_wire::encode(message, &mut octets);
        let mut packet = [0; MAX_IFMP_PACKET];
        let len = ifmp_packet(source, &octets[..len], &mut packet);
        let mut payload = [0; MAX_IFMP_PAYLOAD];
        let len = wrap_default(&packet[..len], &mut payload);
        let channel = home_of(default_end(port)).channel;
        self.send_control(channel, &payload[..len], numbers, notes)
    }
}
