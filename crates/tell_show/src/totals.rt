//! How much of each a network holds.

ghost use Rattle.std.specs.Prelude.{◌≡◌, min};
ghost use Rattle.port_model.specs.Redirection.{greatest_tally};
ghost use Rattle.world_model.specs.Places.{cells_in};
ghost use Rattle.world.specs.Network.{no_notes, world_of};
ghost use Rattle.world.specs.Running.{Runs};
ghost use Rattle.show_text.specs.Shown.{totals_of};

use crate::shown_controller::ShownController;
use crate::switch::count_branches;
use net_types::NodeId;
use show_text::Totals;
use topology::Topology;
use world::World;

/// How many cells wait in all queues.
fn count_cells<C: ShownController>(world: &World<C>, names: &Topology) -> u64
    requires { Runs C.seen names.now world.now }
    ensures { result ≡ min greatest_tally (cells_in (world_of C.seen world.now no_notes)) }
{
    let mut cells: u64 = 0;
    for place in 0..world.places() {
        cells = cells.saturating_add(world.queued(world.place(place)) as u64);
    }
    cells
}

/// How much of each there is.
pub(crate) fn count_all<C: ShownController>(world: &World<C>, names: &Topology) -> Totals
    requires { Runs C.seen names.now world.now }
    ensures { result ≡ totals_of (world_of C.seen world.now no_notes) }
{
    let nodes = names.nodes();
    let mut labels: u64 = 0;
    let mut grants: u64 = 0;
    let mut branches: u64 = 0;
    for place in 0..nodes {
        let node = NodeId(place as u8 + 1);
        let controller = world.controller(node);
        labels = labels.saturating_add(controller.labels());
        grants = grants.saturating_add(controller.grants());
        branches = branches.saturating_add(count_branches(world.switch(node)));
    }
    Totals {
        nodes: nodes as u64,
        labels,
        grants,
        branches,
        cells: count_cells(world, names),
    }
}
