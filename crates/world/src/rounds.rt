//! The queues that hold cells, in the order of a round.

ghost use Rattle.std.specs.Prelude.{◌≡◌, ◌≤◌, ◌+◌, ◌<◌, length};
ghost use Rattle.link_model.specs.Notes.{Journal};
ghost use Rattle.world_model.specs.Limits.{event_limit};
ghost use Rattle.world_model.specs.Topology.{Topology as Described};
ghost use Rattle.world.specs.Counted.{reading_of};
ghost use Rattle.world.specs.Network.{no_notes, world_of};
ghost use Rattle.world.specs.Running.{Runs};
ghost use Rattle.world.specs.Waiting.{IsFirstHolding, node_place};

use crate::counts::Meter;
use crate::world::World;
use net_types::Place;
use node_controller::NodeController;

/// The index of a queue's node in the order of the nodes, counted from 0.
fn node_place(place: Place) -> usize
    ensures { result ≡ node_place place }
{
    let node = match place {
        Place::Down(node) => node,
        Place::Up(node) => node,
        Place::Out(node, _port) => node,
    };
    (node.0 as usize).saturating_sub(1)
}

impl<C: NodeController> World<C> {
    /// The first queue that holds a cell, by its index in the order of a round, from this index on: for each
    /// queue from there up to it is empty. None where all from there on are.
    pub fn next_waiting(&mut self, from: usize) -> Option<usize>
        ghost topology: { Described }
        requires runs { Runs C.seen topology self.old }
        ensures same { (notes : Journal) → world_of C.seen self.new notes ≡ world_of C.seen self.old notes }
        ensures runs { Runs C.seen topology self.new }
        ensures next { IsFirstHolding C.seen self.new from (length self.new.round.items) result }
    {
        if from >= self.round.len() {
            return None;
        }
        let nodes = self.sites.len();
        let mut node = node_place(self.place(from));
        while node < nodes {
            match self.waiting.first_in(node, nodes) {
                None => return None,
                Some(marked) => {
                    let start = self.starts[marked];
                    match self.first_holding(from.max(start), self.starts[marked + 1]) {
                        Some(place) => return Some(place),
                        None => {
                            // all queues of the node are empty, where all were looked at
                            if from <= start {
                                self.waiting.remove(marked);
                            }
                            node = marked + 1;
                        }
                    }
                }
            }
        }
        None
    }

    /// The first queue that holds a cell among those from one index of a round up to another.
    fn first_holding(&self, from: usize, end: usize) -> Option<usize>
        ghost topology: { Described }
        requires runs { Runs C.seen topology self.now }
        requires end { end ≤ length self.now.round.items }
        ensures { IsFirstHolding C.seen self.now from end result }
    {
        for place in from..end {
            if self.queued(self.place(place)) > 0 {
                return Some(place);
            }
        }
        None
    }

    /// So many carries of empty queues: they change the number of events and nothing else. Where there is one,
    /// the meter holds what the world has come to then.
    pub fn pass_over(&mut self, count: usize, meter: &mut Meter)
        ghost topology: { Described }
        requires runs { Runs C.seen topology self.old }
        requires few { self.old.events + count ≤ event_limit }
        ensures world { (notes : Journal) → world_of C.seen self.new notes ≡ record (world_of C.seen self.old notes) { events = self.old.events + count } }
        ensures runs { Runs C.seen topology self.new }
        ensures meter { 1 ≤ count → meter.new ≡ reading_of (world_of C.seen self.new no_notes) }
        ensures kept { count ≡ 0 → meter.new ≡ meter.old }
    {
        if count > 0 {
            self.events += count as u64;
            *meter = Meter::at(self.events, self.counts());
        }
    }
}
