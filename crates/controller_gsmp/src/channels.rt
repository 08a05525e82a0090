//! What the channels of the control link make of their cells, and the cells that wait for the switch.

ghost use Rattle.std.specs.Prelude.{◌≡◌, ◌≤◌, drop, length, nat_lt, slice_get, take, true, IfOk, IfSome, OnOk};
ghost use Rattle.std.specs.Option.{option_map};
ghost use Rattle.net_types.specs.Number.{GivenOut};
ghost use Rattle.controller_link.specs.reassembly.Receipt.{received};
ghost use Rattle.controller_link.specs.Cells.{free_slots, is_channel, ranges_of, reassembly_of, with_reassembly};
ghost use Rattle.controller_link.specs.declared.taker.Taker.TheVariants.{Default, Label};
ghost use Rattle.world_model.specs.Resets.{cuts_default, cuts_gsmp, cuts_label};
ghost use Rattle.controller_gsmp.specs.Client.{AreOneNode, Router, acted};

use crate::client::Client;
use atm_cells::Cell;
use controller_link::Taker;
use link_model::Notes;
use net_types::{OutOfMemory, PortNo};

impl Client {
    /// Takes a cell of a channel. Where it ends a frame that passes its test, the answer is the length
    /// in octets of the frame's payload, which stands at the front of `octets`.
    pub fn receive(
        &mut self,
        taker: Taker,
        cell: &Cell,
        notes: &mut Notes,
        octets: &mut [u8],
    ) -> Result<Option<usize>, OutOfMemory>
        requires channel { is_channel (ranges_of self.old.control) taker ≡ true }
        requires room { 1536 ≤ length octets.old }
        ensures rest { self.new ≡ record self.old { control = self.new.control } }
        ensures ranges { ranges_of self.new.control ≡ ranges_of self.old.control }
        ensures cells { OnOk result (self.new.control ≡ with_reassembly self.old.control taker (received notes.old (nat_lt 0 (free_slots self.old.control)) (reassembly_of self.old.control taker) cell.now).reassembly) }
        ensures notes { OnOk result (notes.new ≡ (received notes.old (nat_lt 0 (free_slots self.old.control)) (reassembly_of self.old.control taker) cell.now).notes) }
        ensures payload { IfOk result (λ len. option_map (λ n. take n octets.new) len ≡ (received notes.old (nat_lt 0 (free_slots self.old.control)) (reassembly_of self.old.control taker) cell.now).payload) }
        ensures len { IfOk result (λ len. IfSome len (λ n. n ≤ 1528)) }
    {
        self.control.receive(taker, cell, notes, octets)
    }

    /// Cuts the chain of the GSMP channel.
    pub fn cut_gsmp(&mut self, notes: &mut Notes) -> Result<(), OutOfMemory>
        ensures acted { (r : Router) (numbers : GivenOut) → OnOk result (acted r self.new notes.new numbers ≡ cuts_gsmp (acted r self.old notes.old numbers)) }
        ensures rest { self.new ≡ record self.old { control = self.new.control } }
        ensures ranges { ranges_of self.new.control ≡ ranges_of self.old.control }
    {
        self.control.cut(Taker::Gsmp, notes)
    }

    /// Cuts the chain of a port's default channel.
    pub fn cut_default(&mut self, port: PortNo, notes: &mut Notes) -> Result<(), OutOfMemory>
        requires { is_channel (ranges_of self.old.control) (Default port) ≡ true }
        ensures acted { (r : Router) (numbers : GivenOut) → AreOneNode r self.old → OnOk result (acted r self.new notes.new numbers ≡ cuts_default (acted r self.old notes.old numbers) port) }
        ensures rest { self.new ≡ record self.old { control = self.new.control } }
        ensures ranges { ranges_of self.new.control ≡ ranges_of self.old.control }
    {
        self.control.cut(Taker::Default(port), notes)
    }

    /// Cuts the chain of a label's channel.
    pub fn cut_label(
        &mut self,
        port: PortNo,
        label: u16,
        notes: &mut Notes,
    ) -> Result<(), OutOfMemory>
        requires { is_channel (ranges_of self.old.control) (Label port label) ≡ true }
        ensures acted { (r : Router) (numbers : GivenOut) → AreOneNode r self.old → OnOk result (acted r self.new notes.new numbers ≡ cuts_label port (acted r self.old notes.old numbers) label) }
        ensures rest { self.new ≡ record self.old { control = self.new.control } }
        ensures ranges { ranges_of self.new.control ≡ ranges_of self.old.control }
    {
        self.control.cut(Taker::Label(port, label), notes)
    }

    /// Takes the first cell that waits for the switch; `None` exactly where none waits.
    pub fn pop(&mut self) -> Option<Cell>
        ensures first { result ≡ slice_get self.old.control.queue 0 }
        ensures popped { self.new ≡ record self.old { control = record self.old.control { queue = drop 1 self.old.control.queue } } }
    {
        self.control.pop()
    }

    /// The cell that waits for the switch at this index, counted from 0; `None` exactly where none waits
    /// there.
    pub fn cell(&self, index: usize) -> Option<Cell>
        ensures { result ≡ slice_get self.now.control.queue index }
    {
        self.control.cell(index)
    }

    /// How many cells wait for the switch.
    pub fn queued(&self) -> usize
        ensures { result ≡ length self.now.control.queue }
    {
        self.control.queued()
    }
}
