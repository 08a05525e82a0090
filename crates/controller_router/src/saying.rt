//! What a router says and cuts at a port.

ghost use Rattle.std.specs.Prelude.{◌≡◌, ◌≤◌, length, true, OnOk};
ghost use Rattle.net_types.specs.Number.{GivenOut};
ghost use Rattle.ifmp_wire.specs.Message.{InRange};
ghost use Rattle.controller_link.specs.Cells.{is_channel};
ghost use Rattle.controller_link.specs.declared.taker.Taker.TheVariants.{Default, Label};
ghost use Rattle.world_model.specs.Resets.{cuts_default, cuts_gsmp, cuts_label};
ghost use Rattle.world_model.specs.Sending.{says_ifmp, sends};
ghost use Rattle.controller_router.specs.Conditions.{CanSay};
ghost use Rattle.controller_router.specs.Node.{acted, ranges_in};

use crate::engine::PortEngine;
use crate::router::Router;
use ifmp_wire::Message;
use link_model::Notes;
use net_types::{Channel, Mark, Numbers, OutOfMemory, PortNo};

impl<E: PortEngine> Router<E> {
    /// Says a message of IFMP to the other end of a port's link.
    pub(crate) fn say(
        &mut self,
        port: PortNo,
        message: &Message,
        numbers: &mut Numbers,
        notes: &mut Notes,
    ) -> Result<(), OutOfMemory>
        requires range { InRange message.now }
        requires can { CanSay (acted E.seen self.old notes.old numbers.old) port }
        ensures acted { OnOk result (acted E.seen self.new notes.new numbers.new ≡ says_ifmp port (acted E.seen self.old notes.old numbers.old) message.now) }
        ensures links { self.new.links ≡ self.old.links }
    {
        self.client
            .say_ifmp(self.address, port, message, numbers, notes)
    }

    /// Cuts the chain of a label's channel.
    pub(crate) fn cut_label(
        &mut self,
        port: PortNo,
        label: u16,
        notes: &mut Notes,
    ) -> Result<(), OutOfMemory>
        requires { is_channel (ranges_in E.seen self.old) (Label port label) ≡ true }
        ensures acted { (numbers : GivenOut) → OnOk result (acted E.seen self.new notes.new numbers ≡ cuts_label port (acted E.seen self.old notes.old numbers) label) }
        ensures links { self.new.links ≡ self.old.links }
        ensures ranges { ranges_in E.seen self.new ≡ ranges_in E.seen self.old }
    {
        self.client.cut_label(port, label, notes)
    }

    /// Cuts the chain of the GSMP channel.
    pub(crate) fn cut_gsmp(&mut self, notes: &mut Notes) -> Result<(), OutOfMemory>
        ensures acted { (numbers : GivenOut) → OnOk result (acted E.seen self.new notes.new numbers ≡ cuts_gsmp (acted E.seen self.old notes.old numbers)) }
        ensures links { self.new.links ≡ self.old.links }
    {
        self.client.cut_gsmp(notes)
    }

    /// Cuts the chain of a port's default channel.
    pub(crate) fn cut_default(&mut self, port: PortNo, notes: &mut Notes) -> Result<(), OutOfMemory>
        requires { is_channel (ranges_in E.seen self.old) (Default port) ≡ true }
        ensures acted { (numbers : GivenOut) → OnOk result (acted E.seen self.new notes.new numbers ≡ cuts_default (acted E.seen self.old notes.old numbers) port) }
        ensures links { self.new.links ≡ self.old.links }
        ensures ranges { ranges_in E.seen self.new ≡ ranges_in E.seen self.old }
    {
        self.client.cut_default(port, notes)
    }

    /// Sends a frame of 1 to 1528 octets.
    pub fn send(
        &mut self,
        channel: Channel,
        mark: Mark,
        payload: &[u8],
        notes: &mut Notes,
    ) -> Result<(), OutOfMemory>
        requires { (1 ≤ length payload.now) × (length payload.now ≤ 1528) }
        ensures acted { (numbers : GivenOut) → OnOk result (acted E.seen self.new notes.new numbers ≡ sends (acted E.seen self.old notes.old numbers) channel mark payload.now) }
        ensures links { self.new.links ≡ self.old.links }
    {
        self.client.send(channel, mark, payload, notes)
    }
}
