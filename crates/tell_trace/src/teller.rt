//! The teller of traces.

use crate::marks::ToldMarks;
use crate::tell::{Passed, tell_event, tell_last, tell_links};
use lab_io::{ReportWriter, Sink, Stop};
use link_model::Notes;
use network_run::{Context, Teller};
use std::alloc::Global;
use tell_passing::Before;
use telling_model::{Ended, Standing};
use topology::Topology;
use world::{NodeController, World};
use world_model::Event;

/// An observer that writes the cell-level trace of a run. It knows which frames it has told, and
/// what it saw before the event that is to come; the cells that an event put it holds until the
/// next one. This project's own.
#[derive(Drop)]
pub struct TraceTeller {
    alloc: Global,
    told: ToldMarks,
    before: Before,
    cells: Vec<Standing>,
}

impl TraceTeller {
    /// Nothing is told yet.
    pub fn new(alloc: Global) -> TraceTeller {
        TraceTeller {
            alloc,
            told: ToldMarks::new(alloc),
            before: Before::nothing(),
            cells: Vec::new(alloc),
        }
    }
}

impl<C: NodeController> Teller<C> for TraceTeller {
    ghost use Rattle.std.specs.Prelude.{List};
    ghost use Rattle.net_types.specs.declared.number.Mark.{Mark};
    ghost use Rattle.tell_trace.specs.Trace.{trace_tale};
    ghost use Rattle.tell_trace.specs.Waiting.{Awaits};

    ghost State = { List Mark };

    ghost state = { λ teller. teller.told };

    ghost tale = { trace_tale };

    ghost awaits = { λ teller. Awaits teller.told teller.before };

    fn passes_over_empty_queues() {}

    fn before(&mut self, world: &World<C>, notes: &Notes, event: &Event) {
        self.before.look(world, notes, event);
    }

    fn open<K: Sink>(
        &mut self,
        _world: &World<C>,
        names: &Topology,
        writer: &mut ReportWriter,
        sink: &mut K,
    ) -> Result<(), Stop> {
        self.told.clear();
        tell_links(self.alloc, names, writer, sink)
    }

    fn after<K: Sink>(
        &mut self,
        context: &Context<'_>,
        event: &Event,
        world: &World<C>,
        notes: &Notes,
        writer: &mut ReportWriter,
        sink: &mut K,
    ) -> Result<(), Stop> {
        self.before.put_cells(world, &mut self.cells)?;
        let passed = Passed {
            event,
            taken: self.before.taken(),
            cells: self.cells.as_slice(),
            notes,
        };
        tell_event(
            self.alloc,
            context.names,
            &passed,
            &mut self.told,
            writer,
            sink,
        )
    }

    fn end<K: Sink>(
        &mut self,
        _world: &World<C>,
        _names: &Topology,
        ended: Ended,
        writer: &mut ReportWriter,
        sink: &mut K,
    ) -> Result<(), Stop> {
        tell_last(self.alloc, ended.refused, writer, sink)
    }
}
