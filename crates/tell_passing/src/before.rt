//! A look at a network before an event.

ghost use Rattle.std.specs.Prelude.{◌≡◌, drop, length, option_copied, slice_get, OnOk};
ghost use Rattle.link_model.specs.Notes.{Journal};
ghost use Rattle.world_model.specs.Conditions.{CanCome};
ghost use Rattle.world_model.specs.network_model.declared.event.Event.{Event as Comes};
ghost use Rattle.world_model.specs.Run.{next};
ghost use Rattle.world_model.specs.Topology.{Topology as Described};
ghost use Rattle.world_model.specs.World.{World as Universe};
ghost use Rattle.world.specs.Network.{world_of};
ghost use Rattle.world.specs.Running.{Runs};
ghost use Rattle.telling_model.specs.Passing.{cells_put};
ghost use Rattle.network_run.specs.Coming.{IsComing};
ghost use Rattle.tell_passing.specs.Look.{IsBefore, IsBehind};

use crate::lengths::Lengths;
use crate::reach::{reached, taken};
use link_model::{Frame, Notes};
use net_types::OutOfMemory;
use telling_model::Standing;
use world::{NodeController, World};
use world_model::Event;

/// A snapshot of the queues before an event: the cell that the event takes, how many frames were
/// made so far, and how many cells it leaves in the queues to which it can put more. This project's
/// own.
#[derive(Clone, Copy)]
pub struct Before {
    pub(crate) taken: Option<Standing>,
    pub(crate) made: usize,
    pub(crate) lengths: Lengths,
}

impl Before {
    /// A look at nothing: no cell is taken, no frame was made, and no actor reached.
    pub fn nothing() -> Before {
        Before {
            taken: None,
            made: 0,
            lengths: Lengths::Nobody,
        }
    }

    /// Looks at a network to which the event is to come. Where the event is to take a cell and none
    /// waits, it looks at the head of that queue alone, and else at the queues of one actor besides.
    pub fn look<C: NodeController>(&mut self, world: &World<C>, notes: &Notes, event: &Event)
        requires coming { IsComing C.seen world.now notes.now event.now }
        ensures { (topology : Described) → Runs C.seen topology world.now → CanCome topology (world_of C.seen world.now notes.now) event.now → IsBefore topology (world_of C.seen world.now notes.now) event.now self.new }
    {
        self.taken = taken(world, event);
        self.made = notes.ledger().made_count();
        self.lengths = Lengths::look(world, reached(world, event, self.taken.is_some()));
    }

    /// The cell that the event takes, and its queue. None exactly where it takes none.
    pub fn taken(&self) -> Option<Standing>
        ensures { result ≡ self.now.taken }
    {
        self.taken
    }

    /// Empties `out`, and fills it with the cells that the event put at the ends of queues, queue by queue
    /// in the order of a round, in each queue the first to come first. `world` is the network behind the
    /// event.
    pub fn put_cells<C: NodeController>(
        &self,
        world: &World<C>,
        out: &mut Vec<Standing>,
    ) -> Result<(), OutOfMemory>
        requires behind { IsBehind C.seen world.now self.now }
        ensures { (topology : Described) (then : Universe) (event : Comes) (notes : Journal) → Runs C.seen topology world.now → IsBefore topology then event self.now → world_of C.seen world.now notes ≡ next topology then event → OnOk result (out.new.items ≡ cells_put topology then event) }
    {
        out.clear();
        self.lengths.put(world, out)
    }

    /// How many frames the event made. `notes` are those behind it.
    pub fn made(&self, notes: &Notes) -> usize
        ensures { result ≡ length (drop self.now.made notes.now.frames) }
    {
        notes.ledger().made_count().saturating_sub(self.made)
    }

    /// The frame that the event made at this index, counted from 0, in the order of their making. None
    /// exactly where it made no more.
    pub fn made_at<'a>(&self, notes: &'a Notes, place: usize) -> Option<&'a Frame>
        ensures { option_copied result ≡ slice_get (drop self.now.made notes.now.frames) place }
    {
        let ledger = notes.ledger();
        if place < ledger.made_count().saturating_sub(self.made) {
            ledger.frame(self.made + place)
        } else {
            None
        }
    }
}
