//! The fabric: branches, queues and the region.

ghost use Rattle.std.specs.Prelude.{◌≡◌, [], ◌∷◌, ◌++◌, ◌<◌, ◌≤◌, ◌+◌, ◌↔◌, length, replicate, slice_get, IsTrue, IsSome, IsNone, IfSome, IfNone, IfOk, true, nat_le};
ghost use Rattle.std.specs.Bool.{OnTrue, OnFalse};
ghost use Rattle.std.specs.FinMap as map;
ghost use Rattle.std.specs.List.{list_all};
ghost use Rattle.cell_pool.specs.Region.{size as slots, cells_of, len_of, IsLine};
ghost use Rattle.cell_pool.specs.Steps.{IsDrained};
ghost use Rattle.cell_pool.specs.Shares.{IsApartFromEach, ShareRegion};
ghost use Rattle.crossbar_model.specs.Channels.{ArePorts, is_connectable};
ghost use Rattle.fabric.specs.Following.{branch_behind};
ghost use Rattle.crossbar_model.specs.Crossbar.{new_branch, moved, cut_by_move, output_of, unfinished_on, first_on, sent, on_channel_of, popped, queue_of, routed, switched};

use crate::branches::Branches;
use atm_cells::Cell;
use cell_pool::{Chain, Pool, Queue};
use crossbar_model::{Branch, Routed};
use net_types::{End, Mark, OutOfMemory, PORTS, PortNo};
use std::alloc::Global;
use std::marker::Model;

/// A switch fabric: the branches of a switch (RFC 1987), an output queue of cells for each of its
/// ports, and the region of slots in which the queues live.
#[must_use]
#[derive(Debug)]
pub struct Fabric {
    branches: Branches,
    /// The queue of each port, by its number.
    queues: Vec<Queue>,
    pool: Pool,
}

impl Model for Fabric {
    ghost use Rattle.std.specs.Prelude.{◌≡◌, length};
    ghost use Rattle.cell_pool.specs.Shares.{ShareRegion};
    ghost use Rattle.crossbar_model.specs.Channels.{end_cmp};
    ghost use Rattle.std.specs.FinMap as map;
    ghost use Rattle.std.specs.Coded.{codes};
    ghost use Rattle.net_types.specs.contracts.channel.End as end_contract;
    ghost use Rattle.crossbar_model.specs.contracts.branch.Branch as branch_contract;
    ghost use Rattle.fabric.specs.Fabric.{FabricView};

    ghost Value = { FabricView };

    ghost coded = { Prim.hlevel (codes, map.code {R = end_cmp} end_contract.the_row.coded branch_contract.the_row.coded) };

    ghost view = { λ f. record { ports = f.branches.ports; vpis = f.branches.vpis; branches = f.branches.branches; lines = f.queues.items; region = f.pool } };

    ghost invariant = { λ f. record {
      nine : length f.queues.items ≡ 9;
      share : ShareRegion f.pool f.queues.items;
    } };
}

impl Fabric {
    ghost use Rattle.fabric.specs.Fabric.{crossbar, free_slots, QueuesChange, QueuesStay, ChainChanges};

    /// A fabric with port 0 and these ports, on each of which it connects VPIs below `vpis`, with so
    /// many slots, all free: no branch, no cell. It takes memory for the slots, and for each port
    /// `vpis` times about 64,000 octets.
    pub fn open(
        alloc: Global,
        ports: &[PortNo],
        cells: usize,
        vpis: u8,
    ) -> Result<Fabric, OutOfMemory>
        requires ports { ArePorts ports.now }
        requires vpis { (1 ≤ vpis) × (vpis ≤ 16) }
        ensures ports { IfOk result (λ f. f.ports ≡ ports.now) }
        ensures vpis { IfOk result (λ f. f.vpis ≡ vpis) }
        ensures empty { IfOk result (λ f. crossbar f ≡ record { branches = map.empty; queues = replicate 9 [] }) }
        ensures size { IfOk result (λ f. slots f.region ≡ cells) }
        ensures free { IfOk result (λ f. free_slots f ≡ cells) }
        ensures share { IfOk result (λ f. ShareRegion f.region f.lines) }
    {
        let branches = Branches::open(alloc, ports, vpis)?;
        let pool = Pool::open(alloc, cells)?;
        let mut queues = Vec::with_capacity(alloc, PORTS)?;
        while queues.len() < PORTS {
            let pushed = queues.push(Queue::new());
            let Ok(()) = pushed else { unreachable!() };
        }
        Ok(Fabric {
            branches,
            queues,
            pool,
        })
    }

    /// Whether the switch can connect a channel.
    pub fn is_connectable(&self, end: End) -> bool
        ensures { result ≡ is_connectable self.now.ports self.now.vpis end }
    {
        self.branches.is_connectable(end)
    }

    /// Makes a branch.
    pub fn connect(&mut self, input: End, output: End)
        requires absent { map.get self.old.branches input ≡ None }
        requires input { is_connectable self.old.ports self.old.vpis input ≡ true }
        requires output { is_connectable self.old.ports self.old.vpis output ≡ true }
        ensures { self.new ≡ record self.old { branches = map.insert self.old.branches input (new_branch output) } }
    {
        self.branches.insert(input, Branch::new(output));
    }

    /// Moves an input's branch to an output. The answer is the mark of the frame that is cut: of
    /// the last cell queued on the branch, if that wasn't a last one and the output changes.
    pub fn move_to(&mut self, input: End, output: End) -> Option<Mark>
        requires present { IsSome (map.get self.old.branches input) }
        requires input { is_connectable self.old.ports self.old.vpis input ≡ true }
        requires output { is_connectable self.old.ports self.old.vpis output ≡ true }
        ensures moved { IfSome (map.get self.old.branches input) (λ b. self.new ≡ record self.old { branches = moved self.old.branches input b output }) }
        ensures cut { IfSome (map.get self.old.branches input) (λ b. result ≡ cut_by_move b output) }
    {
        let branch = self.branches.get(input)?;
        if branch.output == output {
            return None;
        }
        self.branches.insert(input, Branch::new(output));
        branch.unfinished
    }

    /// Ends an input's branch. The answer is the mark of the frame that is cut: of the last cell
    /// queued on the branch, if that wasn't a last one.
    pub fn disconnect(&mut self, input: End) -> Option<Mark>
        requires { IsSome (map.get self.old.branches input) }
        ensures disconnected { self.new ≡ record self.old { branches = map.remove self.old.branches input } }
        ensures cut { result ≡ unfinished_on self.old.branches input }
    {
        let ended = self.branches.get(input)?;
        self.branches.remove(input);
        ended.unfinished
    }

    /// Where the cells of an input go. None exactly where it has no branch.
    pub fn branch(&self, input: End) -> Option<End>
        ensures { result ≡ output_of self.now.branches input }
    {
        let branch = self.branches.get(input)?;
        Some(branch.output)
    }

    /// The least input of the port that has a branch. None exactly where none has.
    pub fn first_of(&self, port: PortNo) -> Option<End>
        ensures first { result ≡ first_on self.now.branches port }

        // What a caller that doesn't open the fabric needs besides.
        ensures ports { list_all (λ input. nat_le input.port.0 8) (map.keys self.now.branches) ≡ true }
    {
        self.branches.first_on(port)
    }

    /// The first branch whose input stands behind another, in the order of port, VPI and VCI, or the
    /// first of all: the input, and where its cells go. None exactly where there is none.
    pub fn branch_at(&self, after: Option<End>) -> Option<(End, End)>
        ensures { result ≡ branch_behind self.now.branches after }
    {
        self.branches.first_behind(after)
    }

    /// What holds of every fabric: it has no more branches than channels that any fabric connects.
    pub fn branches_are_few(&self)
        ensures { length (map.entries self.now.branches) ≤ 254208 }
    {
        self.branches.are_few();
    }

    /// Takes a cell that came on a port: to the end of the queue of its branch's output, with the
    /// output's channel.
    pub fn switch_cell(&mut self, port: PortNo, cell: &Cell) -> Routed
        ensures routed { result ≡ routed (crossbar self.old) (free_slots self.old) port cell.now }
        ensures switched { crossbar self.new ≡ switched (crossbar self.old) (free_slots self.old) port cell.now }
        ensures queues { QueuesChange self.old self.new }
    {
        let input = End {
            port,
            channel: cell.header.channel,
        };
        if self.free() == 0 {
            return match self.branch(input) {
                Some(_output) => Routed::PoolFull,
                None => Routed::Unconnected,
            };
        }
        let Some(output) = self.branches.pass(input, cell) else {
            return Routed::Unconnected;
        };
        self.push(output, cell);
        Routed::Out(output)
    }

    /// Puts the cells at the end of a port's queue, or none of them. False exactly where fewer
    /// slots are free than cells.
    pub fn send(&mut self, port: PortNo, cells: &[Cell]) -> bool
        requires { port.0 ≤ 8 }
        ensures all { IsTrue result ↔ (length cells.now ≤ free_slots self.old) }
        ensures sent { OnTrue result (crossbar self.new ≡ sent (crossbar self.old) port cells.now) }
        ensures none { OnFalse result (self.new ≡ self.old) }
        ensures queues { QueuesChange self.old self.new }
    {
        if self.pool.free() < cells.len() {
            return false;
        }
        for cell in cells {
            let channel = cell.header.channel;
            self.push(End { port, channel }, cell);
        }
        true
    }

    /// Takes the first cell of a port's queue. None exactly where none waits there.
    pub fn pop(&mut self, port: PortNo) -> Option<Cell>
        requires { port.0 ≤ 8 }
        ensures first { result ≡ slice_get (queue_of (crossbar self.old) port) 0 }
        ensures popped { crossbar self.new ≡ popped (crossbar self.old) port }
        ensures queues { QueuesChange self.old self.new }
    {
        let queue = &mut self.queues[port.0 as usize];
        let slot = queue.pop(&mut self.pool)?;
        let cell = self.pool.read(&slot);
        self.pool.put(slot);
        Some(cell)
    }

    /// The cell at an index of a port's queue, counted from the front from 0 on. None exactly where no
    /// more cells than that wait there. It is found from the nearer end of the queue.
    pub fn cell(&self, port: PortNo, index: usize) -> Option<Cell>
        requires { port.0 ≤ 8 }
        ensures { result ≡ slice_get (queue_of (crossbar self.now) port) index }
    {
        let queue = &self.queues[port.0 as usize];
        queue.at(&self.pool, index)
    }

    /// How many cells wait at a port.
    pub fn queued(&self, port: PortNo) -> usize
        requires { port.0 ≤ 8 }
        ensures { result ≡ length (queue_of (crossbar self.now) port) }
    {
        self.queues[port.0 as usize].len()
    }

    /// How many slots are free.
    pub fn free(&self) -> usize
        ensures { result ≡ free_slots self.now }
    {
        self.pool.free()
    }

    /// The region of slots.
    pub fn region(&self) -> &Pool
        ensures { result.now ≡ self.now.region }
    {
        &self.pool
    }

    /// Puts the cell at the end of a chain of the region. False exactly where no slot is free; then
    /// nothing changes.
    pub fn chain_push(&mut self, chain: &mut Chain, cell: &Cell) -> bool
        requires threaded { IsLine self.old.region chain.old }
        requires apart { IsApartFromEach self.old.region self.old.lines chain.old }
        requires room { len_of chain.old < 32 }
        ensures full { IsTrue result ↔ (0 < free_slots self.old) }
        ensures pushed { OnTrue result (cells_of self.new.region chain.new ≡ cells_of self.old.region chain.old ++ cell.now ∷ []) }
        ensures none { OnFalse result ((self.new ≡ self.old) × (chain.new ≡ chain.old)) }
        ensures chain { ChainChanges self.old self.new chain.old chain.new }
    {
        let Some(slot) = self.pool.take(cell) else {
            return false;
        };
        chain.push(&mut self.pool, slot);
        true
    }

    /// Takes the first cell of a chain of the region. None exactly where it has none.
    pub fn chain_pop(&mut self, chain: &mut Chain) -> Option<Cell>
        requires threaded { IsLine self.old.region chain.old }
        requires apart { IsApartFromEach self.old.region self.old.lines chain.old }
        ensures none { IsNone result ↔ (len_of chain.old ≡ 0) }
        ensures popped { IfSome result (λ cell. cells_of self.old.region chain.old ≡ cell ∷ cells_of self.new.region chain.new) }
        ensures none_same { IfNone result ((self.new ≡ self.old) × (chain.new ≡ chain.old)) }
        ensures chain { ChainChanges self.old self.new chain.old chain.new }
    {
        let slot = chain.pop(&mut self.pool)?;
        let cell = self.pool.read(&slot);
        self.pool.put(slot);
        Some(cell)
    }

    /// Gives the slots of a chain of the region back.
    pub fn chain_drain(&mut self, chain: Chain)
        requires threaded { IsLine self.old.region chain }
        requires apart { IsApartFromEach self.old.region self.old.lines chain }
        ensures drained { IsDrained self.old.region self.new.region chain }
        ensures queues { QueuesStay self.old self.new }
    {
        chain.drain(&mut self.pool);
    }

    /// Gives up all queues.
    pub fn abandon(self) {
        let Fabric {
            branches: _,
            mut queues,
            mut pool,
        } = self;
        while let Some(queue) = queues.pop() {
            queue.drain(&mut pool);
        }
        queues.destroy_empty();
    }

    /// Puts a cell, with the channel of an output, at the end of the output's queue.
    fn push(&mut self, output: End, cell: &Cell)
        requires port { output.port.0 ≤ 8 }
        requires room { 0 < free_slots self.old }
        ensures free { free_slots self.new + 1 ≡ free_slots self.old }
        ensures sent { crossbar self.new ≡ sent (crossbar self.old) output.port (on_channel_of cell.now output ∷ []) }
        ensures queues { QueuesChange self.old self.new }
    {
        let slot = self.pool.fill(output.channel, cell);
        let queue = &mut self.queues[output.port.0 as usize];
        queue.push(&mut self.pool, slot);
    }
}
