//! Who shows a network.

use crate::shown_controller::ShownController;
use crate::tell::{tell_last, tell_nodes};
use lab_io::{ReportWriter, Sink, Stop};
use network_run::{EndTeller, PlainTeller, Silence};
use std::alloc::Global;
use telling_model::Ended;
use topology::Topology;
use world::World;

/// An observer's part that writes the state of the last network. This project's own.
#[derive(Clone, Copy, Debug, Drop)]
pub struct LastState {
    alloc: Global,
}

impl<C: ShownController> EndTeller<C> for LastState {
    ghost use Rattle.tell_show.specs.Show.{show_tale};

    ghost last = { show_tale.ends };

    fn tell_end<K: Sink>(
        &self,
        world: &World<C>,
        names: &Topology,
        ended: Ended,
        writer: &mut ReportWriter,
        sink: &mut K,
    ) -> Result<(), Stop> {
        tell_nodes(self.alloc, names, world, writer, sink)?;
        tell_last(self.alloc, names, world, ended.refused, writer, sink)
    }
}

/// An observer that writes the state of the network at last, as a router's show commands do, and
/// nothing before. This project's own.
pub type ShowTeller = PlainTeller<Silence, LastState>;

/// Who shows a network. Lines are made in this memory.
pub fn show_teller(alloc: Global) -> ShowTeller {
    PlainTeller::new(Silence, LastState { alloc })
}
