//! The fabric, and the reassembly of the GSMP channel that shares its slots.

ghost use Rattle.std.specs.Prelude.{◌≡◌, [], ◌∷◌, ◌++◌, ◌<◌, ◌≤◌, ◌↔◌, None, length, take, replicate, nat_lt, OnOk, slice_get, IsTrue, IsSome, IfSome, IfOk, true, nat_le};
ghost use Rattle.std.specs.List.{list_all};
ghost use Rattle.std.specs.Bool.{OnTrue, OnFalse};
ghost use Rattle.std.specs.FinMap as map;
ghost use Rattle.std.specs.Option.{option_map};
ghost use Rattle.frame_model.specs.Reassembly.{cut, nothing_taken};
ghost use Rattle.reassembly.specs.Receipt.{received};
ghost use Rattle.crossbar_model.specs.Channels.{ArePorts, is_connectable};
ghost use Rattle.crossbar_model.specs.Crossbar.{new_branch, moved, cut_by_move, output_of, unfinished_on, first_on, sent, popped, queue_of, routed, switched};
ghost use Rattle.fabric.specs.Fabric.{crossbar, free_slots};
ghost use Rattle.fabric.specs.Following.{branch_behind};
ghost use Rattle.gsmp_switch.specs.Exchange.{AreOneRegion, free_in, store_of};

use atm_cells::Cell;
use fabric::{Fabric, Routed};
use frame_model::Queues;
use link_model::Notes;
use net_types::{End, Mark, OutOfMemory, PortNo};
use reassembly::Reassembly;
use std::alloc::Global;
use std::marker::Model;

/// The branches and queues of a switch, and the reassembly of its GSMP channel, in one region of
/// slots.
#[must_use]
#[derive(Debug)]
pub(crate) struct Exchange {
    fabric: Fabric,
    reassembly: Reassembly,
}

impl Model for Exchange {
    ghost use Rattle.std.specs.FinMap as map;
    ghost use Rattle.std.specs.Coded.{codes};
    ghost use Rattle.crossbar_model.specs.Channels.{end_cmp};
    ghost use Rattle.net_types.specs.contracts.channel.End as end_contract;
    ghost use Rattle.crossbar_model.specs.contracts.branch.Branch as branch_contract;
    ghost use Rattle.gsmp_switch.specs.Exchange.{AreOneRegion, Store, store_of};

    ghost Value = { Store };

    ghost coded = { Prim.hlevel (codes, map.code {R = end_cmp} end_contract.the_row.coded branch_contract.the_row.coded) };

    ghost view = { λ x. store_of x.fabric x.reassembly };

    ghost invariant = { λ x. AreOneRegion x.fabric x.reassembly.chain };
}

impl Exchange {
    /// With port 0 and these ports and so many slots: no branch and no cell.
    pub(crate) fn open(
        alloc: Global,
        ports: &[PortNo],
        cells: usize,
        vpis: u8,
    ) -> Result<Exchange, OutOfMemory>
        requires ports { ArePorts ports.now }
        requires vpis { (1 ≤ vpis) × (vpis ≤ 16) }
        ensures { IfOk result (λ x. x ≡ record { ports = ports.now; vpis = vpis; crossbar = record { branches = map.empty; queues = replicate 9 [] }; reassembly = nothing_taken; cells = cells }) }
    {
        Ok(Exchange {
            fabric: Fabric::open(alloc, ports, cells, vpis)?,
            reassembly: Reassembly::new(),
        })
    }

    /// Whether a channel can be connected.
    pub(crate) fn is_connectable(&self, end: End) -> bool
        ensures { result ≡ is_connectable self.now.ports self.now.vpis end }
    {
        self.fabric.is_connectable(end)
    }

    /// Makes a branch.
    pub(crate) fn connect(&mut self, input: End, output: End)
        requires absent { map.get self.old.crossbar.branches input ≡ None }
        requires input { is_connectable self.old.ports self.old.vpis input ≡ true }
        requires output { is_connectable self.old.ports self.old.vpis output ≡ true }
        ensures { self.new ≡ record self.old { crossbar = record self.old.crossbar { branches = map.insert self.old.crossbar.branches input (new_branch output) } } }
    {
        self.fabric.connect(input, output);
    }

    /// Moves a branch. The answer is the mark of the frame that is cut.
    pub(crate) fn move_to(&mut self, input: End, output: End) -> Option<Mark>
        requires present { IsSome (map.get self.old.crossbar.branches input) }
        requires input { is_connectable self.old.ports self.old.vpis input ≡ true }
        requires output { is_connectable self.old.ports self.old.vpis output ≡ true }
        ensures moved { IfSome (map.get self.old.crossbar.branches input) (λ b. self.new ≡ record self.old { crossbar = record self.old.crossbar { branches = moved self.old.crossbar.branches input b output } }) }
        ensures cut { IfSome (map.get self.old.crossbar.branches input) (λ b. result ≡ cut_by_move b output) }
    {
        self.fabric.move_to(input, output)
    }

    /// Ends a branch. The answer is the mark of the frame that is cut.
    pub(crate) fn disconnect(&mut self, input: End) -> Option<Mark>
        requires { IsSome (map.get self.old.crossbar.branches input) }
        ensures disconnected { self.new ≡ record self.old { crossbar = record self.old.crossbar { branches = map.remove self.old.crossbar.branches input } } }
        ensures cut { result ≡ unfinished_on self.old.crossbar.branches input }
    {
        self.fabric.disconnect(input)
    }

    /// Where the cells of an input go.
    pub(crate) fn branch(&self, input: End) -> Option<End>
        ensures { result ≡ output_of self.now.crossbar.branches input }
    {
        self.fabric.branch(input)
    }

    /// The least input of the port that has a branch.
    pub(crate) fn first_of(&self, port: PortNo) -> Option<End>
        ensures first { result ≡ first_on self.now.crossbar.branches port }
        ensures ports { list_all (λ input. nat_le input.port.0 8) (map.keys self.now.crossbar.branches) ≡ true }
    {
        self.fabric.first_of(port)
    }

    /// The first branch whose input stands behind another, or the first of all.
    pub(crate) fn branch_at(&self, after: Option<End>) -> Option<(End, End)>
        ensures { result ≡ branch_behind self.now.crossbar.branches after }
    {
        self.fabric.branch_at(after)
    }

    /// What holds of every exchange: its branches are few.
    pub(crate) fn branches_are_few(&self)
        ensures { length (map.entries self.now.crossbar.branches) ≤ 254208 }
    {
        self.fabric.branches_are_few();
    }

    /// Takes a cell that came on a port to the queue of its branch's output.
    #[tactic(auto, using(crate::proofs::Exchanges::free_is, crate::proofs::Exchanges::chain_length))]
    pub(crate) fn switch_cell(&mut self, port: PortNo, cell: &Cell) -> Routed
        ensures routed { result ≡ routed self.old.crossbar (free_in self.old) port cell.now }
        ensures switched { self.new ≡ record self.old { crossbar = switched self.old.crossbar (free_in self.old) port cell.now } }
    {
        self.fabric.switch_cell(port, cell)
    }

    /// Takes the first cell of a port's queue.
    pub(crate) fn pop(&mut self, port: PortNo) -> Option<Cell>
        requires { port.0 ≤ 8 }
        ensures first { result ≡ slice_get (queue_of self.old.crossbar port) 0 }
        ensures popped { self.new ≡ record self.old { crossbar = popped self.old.crossbar port } }
    {
        self.fabric.pop(port)
    }

    /// The cell at an index of a port's queue.
    pub(crate) fn cell(&self, port: PortNo, index: usize) -> Option<Cell>
        requires { port.0 ≤ 8 }
        ensures { result ≡ slice_get (queue_of self.now.crossbar port) index }
    {
        self.fabric.cell(port, index)
    }

    /// How many cells wait at a port.
    pub(crate) fn queued(&self, port: PortNo) -> usize
        requires { port.0 ≤ 8 }
        ensures { result ≡ length (queue_of self.now.crossbar port) }
    {
        self.fabric.queued(port)
    }

    /// How many slots are free.
    #[tactic(auto, using(crate::proofs::Exchanges::free_is, crate::proofs::Exchanges::chain_length))]
    pub(crate) fn free(&self) -> usize
        ensures { result ≡ free_in self.now }
    {
        self.fabric.free()
    }

    /// How many slots there are.
    pub(crate) fn slots(&self) -> usize
        ensures { result ≡ self.now.cells }
    {
        self.fabric.region().size()
    }

    /// Takes a cell of the GSMP channel. Where it ends a frame that passes its test, the answer is the
    /// length in octets of the frame's payload, which stands at the front of `octets`.
    pub(crate) fn receive(
        &mut self,
        cell: &Cell,
        notes: &mut Notes,
        octets: &mut [u8],
    ) -> Result<Option<usize>, OutOfMemory>
        requires { 1536 ≤ length octets.old }
        ensures linked { self.new.ports ≡ self.old.ports }
        ensures store { OnOk result (self.new ≡ record self.old { reassembly = (received notes.old (nat_lt 0 (free_in self.old)) self.old.reassembly cell.now).reassembly }) }
        ensures notes { OnOk result (notes.new ≡ (received notes.old (nat_lt 0 (free_in self.old)) self.old.reassembly cell.now).notes) }
        ensures payload { IfOk result (λ len. option_map (λ n. take n octets.new) len ≡ (received notes.old (nat_lt 0 (free_in self.old)) self.old.reassembly cell.now).payload) }
        ensures len { IfOk result (λ len. IfSome len (λ n. n ≤ 1528)) }
    {
        self.reassembly
            .receive(&mut self.fabric, cell, notes, octets)
    }

    /// Cuts the GSMP channel.
    pub(crate) fn cut(&mut self, notes: &mut Notes) -> Result<(), OutOfMemory>
        ensures store { self.new ≡ record self.old { reassembly = nothing_taken } }
        ensures notes { OnOk result (notes.new ≡ cut notes.old self.old.reassembly) }
    {
        self.reassembly.cut(&mut self.fabric, notes)
    }

    /// The fabric.
    #[tactic(auto, using(crate::proofs::Exchanges::free_is, crate::proofs::Exchanges::chain_length))]
    pub(crate) fn fabric(&self) -> &Fabric
        ensures ports { result.now.ports ≡ self.now.ports }
        ensures vpis { result.now.vpis ≡ self.now.vpis }
        ensures crossbar { crossbar result.now ≡ self.now.crossbar }
        ensures free { free_slots result.now ≡ free_in self.now }
    {
        &self.fabric
    }

    /// Gives up all cells.
    pub(crate) fn abandon(self) {
        let Exchange {
            mut fabric,
            reassembly,
        } = self;
        reassembly.abandon(&mut fabric);
        fabric.abandon();
    }
}

impl Queues<PortNo> for Exchange {
    ghost use Rattle.std.specs.Prelude.{◌≤◌};
    ghost use Rattle.crossbar_model.specs.Crossbar.{sent};
    ghost use Rattle.gsmp_switch.specs.Exchange.{free_in};

    ghost free = { free_in };

    ghost with_cells = { λ x port cells. record x { crossbar = sent x.crossbar port cells } };

    ghost has_queue = { λ x port. port.0 ≤ 8 };

    #[tactic(auto, using(crate::proofs::Exchanges::free_is, crate::proofs::Exchanges::chain_length))]
    fn send(&mut self, port: PortNo, cells: &[Cell]) -> bool
        requires { port.0 ≤ 8 }
        ensures all { IsTrue result ↔ (length cells.now ≤ free_in self.old) }
        ensures sent { OnTrue result (self.new ≡ record self.old { crossbar = sent self.old.crossbar port cells.now }) }
        ensures none { OnFalse result (self.new ≡ self.old) }
    {
        self.fabric.send(port, cells)
    }
}
