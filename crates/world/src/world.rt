//! The network.

ghost use Rattle.std.specs.Prelude.{◌≡◌, ◌≤◌, ◌<◌, ◌-◌, length, option_map, slice_get, Some};
ghost use Rattle.world_model.specs.Places.{place_node, queue_at, queue_number};
ghost use Rattle.world_model.specs.Topology.{Topology as Described};
ghost use Rattle.world_model.specs.World.{controller_at, counts_of, site_at};
ghost use Rattle.world.specs.Network.{IsNodeIn, no_notes, world_of};
ghost use Rattle.world.specs.Running.{Runs};

use crate::counts::Counts;
use crate::node_set::NodeSet;
use crate::site::{STARTS, Site};
use crate::tally::{Tally, Total};
use atm_cells::Cell;
use gsmp_switch::Switch;
use net_types::{CONTROL_PORT, NodeId, Numbers, Place};
use node_controller::NodeController;

/// The state of a network between two events (a world): its nodes, its queues, and what its run has
/// given out. This project's own. It must be given up by [`World::abandon`].
#[must_use]
pub struct World<C> {
    /// The nodes, in the order of their numbers from 1.
    pub(crate) sites: Vec<Site<C>>,
    /// The queues, in the order of a round.
    pub(crate) round: Vec<Place>,
    /// Where the queues of each node start in that order, and where those of the last one end.
    pub(crate) starts: [usize; STARTS],
    /// The nodes at which cells may wait.
    pub(crate) waiting: NodeSet,
    /// What the run has given out.
    pub(crate) numbers: Numbers,
    pub(crate) events: u64,
    /// How many packets were to be sent.
    pub(crate) sent: u32,
    pub(crate) tally: Tally,
    /// How many REDIRECTs the controllers accepted, and how many cells the switches put from link to
    /// link.
    pub(crate) redirects: Total,
    pub(crate) switched: Total,
}

impl<C: NodeController> World<C> {
    /// How many queues there are.
    pub fn places(&self) -> usize
        ensures { result ≡ length self.now.round.items }
    {
        self.round.len()
    }

    /// The queue at this index in the order of a round, counted from 0: node by node, from the
    /// controller, to the controller, and then from the linked ports, ascending. The index is below
    /// [`World::places`].
    pub fn place(&self, index: usize) -> Place
        requires { index < length self.now.round.items }
        ensures { slice_get self.now.round.items index ≡ Some result }
    {
        self.round[index]
    }

    /// The counts so far.
    pub fn counts(&self) -> Counts
        ensures { (topology : Described) → Runs C.seen topology self.now → result ≡ counts_of (world_of C.seen self.now no_notes) }
    {
        Counts {
            sent: u64::from(self.sent),
            delivered: self.tally.delivered,
            dropped: self.tally.dropped,
            refused: self.tally.refused,
            losses: self.tally.losses,
            redirects: self.redirects.sum(),
            switched: self.switched.sum(),
            chance: self.tally.chance,
        }
    }

    /// How many events it stepped since its opening.
    pub fn events(&self) -> u64
        ensures { result ≡ self.now.events }
    {
        self.events
    }

    /// The controller of a node.
    pub fn controller(&self, node: NodeId) -> &C
        requires { IsNodeIn self.now node }
        ensures { (topology : Described) → Runs C.seen topology self.now → controller_at (world_of C.seen self.now no_notes) node ≡ Some (C.seen result.now) }
    {
        &self.sites[node.0 as usize - 1].controller
    }

    /// The switch of a node.
    pub fn switch(&self, node: NodeId) -> &Switch
        requires { IsNodeIn self.now node }
        ensures { (topology : Described) → Runs C.seen topology self.now → option_map (λ site. site.switch) (site_at (world_of C.seen self.now no_notes) node) ≡ Some result.now }
    {
        &self.sites[node.0 as usize - 1].switch
    }

    /// The cell that waits in a queue at this index, counted from 0 at its head. None exactly where none
    /// waits there.
    pub fn cell(&self, place: Place, index: usize) -> Option<Cell>
        requires node { IsNodeIn self.now (place_node place) }
        requires port { queue_number place ≤ 9 }
        ensures { (topology : Described) → Runs C.seen topology self.now → result ≡ slice_get (queue_at (world_of C.seen self.now no_notes) place) index }
    {
        match place {
            Place::Down(node) => self.controller(node).cell(index),
            Place::Up(node) => self.switch(node).cell(CONTROL_PORT, index),
            Place::Out(node, port) => self.switch(node).cell(port, index),
        }
    }

    /// How many cells wait in a queue.
    pub fn queued(&self, place: Place) -> usize
        requires node { IsNodeIn self.now (place_node place) }
        requires port { queue_number place ≤ 9 }
        ensures { (topology : Described) → Runs C.seen topology self.now → result ≡ length (queue_at (world_of C.seen self.now no_notes) place) }
    {
        match place {
            Place::Down(node) => self.controller(node).queued(),
            Place::Up(node) => self.switch(node).queued(CONTROL_PORT),
            Place::Out(node, port) => self.switch(node).queued(port),
        }
    }

    /// Gives up all nodes.
    pub fn abandon(self) {
        let World {
            mut sites,
            round: _,
            starts: _,
            waiting: _,
            numbers: _,
            events: _,
            sent: _,
            tally: _,
            redirects: _,
            switched: _,
        } = self;
        while let Some(site) = sites.pop() {
            site.abandon();
        }
        sites.destroy_empty();
    }
}
