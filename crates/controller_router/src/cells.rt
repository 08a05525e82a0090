//! Who takes the cells that come from the switch, and what their channels make of them; and the cells that
//! wait for it.

ghost use Rattle.std.specs.Prelude.{◌≡◌, ◌≤◌, drop, length, slice_get, take, true, IfOk, IfSome, OnOk};
ghost use Rattle.std.specs.Option.{option_map};
ghost use Rattle.net_types.specs.Number.{GivenOut};
ghost use Rattle.controller_link.specs.Cells.{is_channel};
ghost use Rattle.world_model.specs.Cells.{Taker as TakerValue, same_channel, taker_at, taker_of};
ghost use Rattle.world_model.specs.Controller.{default_channel, linked_at};
ghost use Rattle.controller_router.specs.Cells.{IsFound, channel_of, gathered, receipt};
ghost use Rattle.controller_router.specs.Node.{acted, controller_of, ranges_in};

use crate::engine::PortEngine;
use crate::router::Router;
use atm_cells::Cell;
use controller_link::Taker;
use link_model::Notes;
use net_types::{Channel, DEFAULT_CHANNEL, OutOfMemory, PortNo, VPIS_PER_PORT, label_number};

/// The greatest port that a VPI of the control link can stand for.
const LAST_PORT: u16 = net_types::LAST_PORT as u16;

/// Whether a channel is GSMP's on the control link, or the default channel of a link.
fn is_default(channel: Channel) -> bool
    ensures { result ≡ same_channel channel default_channel }
{
    channel.vpi == DEFAULT_CHANNEL.vpi && channel.vci == DEFAULT_CHANNEL.vci
}

impl<E: PortEngine> Router<E> {
    /// Who takes the cells of a channel of a port's link.
    fn taker_on(&self, port: PortNo, channel: Channel) -> Option<Taker>
        ensures { result ≡ option_map channel_of (taker_at (linked_at (controller_of E.seen self.now) port) channel) }
    {
        let Some(place) = self.place_of(port) else {
            return None;
        };
        let link = &self.links[place];
        if is_default(channel) {
            return Some(Taker::Default(port));
        }
        let Some(number) = label_number(channel) else {
            return None;
        };
        match link.flow_of(number) {
            Some(_flow) => Some(Taker::Label(port, number)),
            None => None,
        }
    }

    /// Who takes the cells of a channel of the control link: the GSMP channel, the default channel of a
    /// linked port, or the channel of a label that is bound.
    pub fn taker_of(&self, channel: Channel) -> Option<Taker>
        ensures { result ≡ option_map channel_of (taker_of (controller_of E.seen self.now) channel) }
    {
        if is_default(channel) {
            return Some(Taker::Gsmp);
        }
        let port = channel.vpi / VPIS_PER_PORT;
        if port > LAST_PORT {
            let _linked = self.ports();
            return None;
        }
        let on_link = Channel {
            vpi: channel.vpi % VPIS_PER_PORT,
            vci: channel.vci,
        };
        self.taker_on(PortNo(port as u8), on_link)
    }

    /// Takes a cell of a channel. Where it ends a frame that passes its test, the answer is the length
    /// in octets of the frame's payload, which stands at the front of `octets`.
    pub fn receive(
        &mut self,
        taker: Taker,
        cell: &Cell,
        notes: &mut Notes,
        octets: &mut [u8],
    ) -> Result<Option<usize>, OutOfMemory>
        requires channel { is_channel (ranges_in E.seen self.old) taker ≡ true }
        requires room { 1536 ≤ length octets.old }
        ensures acted { (t : TakerValue) (numbers : GivenOut) → channel_of t ≡ taker → IsFound (controller_of E.seen self.old) t → OnOk result (acted E.seen self.new notes.new numbers ≡ gathered (acted E.seen self.old notes.old numbers) t (receipt (acted E.seen self.old notes.old numbers) t cell.now)) }
        ensures payload { (t : TakerValue) (numbers : GivenOut) → channel_of t ≡ taker → IsFound (controller_of E.seen self.old) t → IfOk result (λ len. option_map (λ n. take n octets.new) len ≡ (receipt (acted E.seen self.old notes.old numbers) t cell.now).payload) }
        ensures len { IfOk result (λ len. IfSome len (λ n. n ≤ 1528)) }
        ensures links { self.new.links ≡ self.old.links }
    {
        self.client.receive(taker, cell, notes, octets)
    }

    /// Takes the first cell that waits for the switch. None exactly where none waits.
    pub fn pop(&mut self) -> Option<Cell>
        ensures first { result ≡ slice_get (controller_of E.seen self.old).queue 0 }
        ensures popped { controller_of E.seen self.new ≡ record (controller_of E.seen self.old) { queue = drop 1 (controller_of E.seen self.old).queue } }
        ensures links { self.new.links ≡ self.old.links }
    {
        self.client.pop()
    }

    /// The cell that waits for the switch at this index, counted from 0. None exactly where none waits
    /// there.
    pub fn cell(&self, index: usize) -> Option<Cell>
        ensures { result ≡ slice_get (controller_of E.seen self.now).queue index }
    {
        self.client.cell(index)
    }

    /// How many cells wait for the switch.
    pub fn queued(&self) -> usize
        ensures { result ≡ length (controller_of E.seen self.now).queue }
    {
        self.client.queued()
    }
}
