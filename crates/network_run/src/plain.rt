//! Who tells a run in two parts.

ghost use Rattle.std.specs.Prelude.{◌≡◌};

use crate::context::Context;
use crate::teller::Teller;
use lab_io::{ReportWriter, Sink, Stop};
use link_model::{Notes, Record};
use telling_model::Ended;
use topology::Topology;
use world::{NodeController, World};
use world_model::Event;

/// An observer's part that tells of an event by its records alone, and knows nothing from those before.
/// This project's own.
pub trait RecordTeller {
    ghost use Rattle.std.specs.Prelude.{◌≡◌, ℕ, List, []};
    ghost use Rattle.lab_io.specs.Fault.{count_after};
    ghost use Rattle.lab_io.specs.Puts.{Puts, StaysWithin, is_failed};
    ghost use Rattle.link_model.specs.declared.record.Record.{Record as Noted};
    ghost use Rattle.world_model.specs.Topology.{Topology as Described};

    // What it tells of records.
    ghost lines: { Described → List Noted → List ℕ };

    /// An event came that made these records.
    fn tell_records<K: Sink>(
        &self,
        records: &[Record],
        names: &Topology,
        writer: &mut ReportWriter,
        sink: &mut K,
    ) -> Result<(), Stop>
        ensures put { Puts result writer.old writer.new (K.written sink.old) (K.written sink.new) (lines names.now records.now) }
        ensures room { StaysWithin writer.old writer.new }
        ensures faults { K.faults sink.new ≡ count_after (is_failed result) (K.faults sink.old) };

    // Of no record it tells nothing.
    ghost nothing: { (names : Described) → lines names [] ≡ [] };
}

/// An observer's part that tells of the last network. This project's own.
pub trait EndTeller<C: NodeController> {
    ghost use Rattle.std.specs.Prelude.{◌≡◌, ℕ, List};
    ghost use Rattle.lab_io.specs.Fault.{count_after};
    ghost use Rattle.lab_io.specs.Puts.{Puts, StaysWithin, is_failed};
    ghost use Rattle.telling_model.specs.declared.ended.Ended.{Ended as End};
    ghost use Rattle.world_model.specs.Topology.{Topology as Described};
    ghost use Rattle.world_model.specs.World.{World as Universe};
    ghost use Rattle.world.specs.Network.{no_notes, world_of};
    ghost use Rattle.world.specs.Running.{Runs};

    // What it tells of a world.
    ghost last: { Described → Universe → End → List ℕ };

    /// The reading has ended.
    fn tell_end<K: Sink>(
        &self,
        world: &World<C>,
        names: &Topology,
        ended: Ended,
        writer: &mut ReportWriter,
        sink: &mut K,
    ) -> Result<(), Stop>
        requires { Runs C.seen names.now world.now }
        ensures put { Puts result writer.old writer.new (K.written sink.old) (K.written sink.new) (last names.now (world_of C.seen world.now no_notes) ended) }
        ensures room { StaysWithin writer.old writer.new }
        ensures faults { K.faults sink.new ≡ count_after (is_failed result) (K.faults sink.old) };
}

/// A part of an observer that tells nothing (silence). This project's own.
#[derive(Clone, Copy, Debug, Drop)]
pub struct Silence;

impl RecordTeller for Silence {
    ghost use Rattle.std.specs.Prelude.{[], refl};

    ghost lines = { λ _ _. [] };

    ghost nothing = { λ _. refl };

    fn tell_records<K: Sink>(
        &self,
        _records: &[Record],
        _names: &Topology,
        _writer: &mut ReportWriter,
        _sink: &mut K,
    ) -> Result<(), Stop> {
        Ok(())
    }
}

impl<C: NodeController> EndTeller<C> for Silence {
    ghost use Rattle.std.specs.Prelude.{[]};

    ghost last = { λ _ _ _. [] };

    fn tell_end<K: Sink>(
        &self,
        _world: &World<C>,
        _names: &Topology,
        _ended: Ended,
        _writer: &mut ReportWriter,
        _sink: &mut K,
    ) -> Result<(), Stop> {
        Ok(())
    }
}

/// An observer of two parts: one tells of each event by its records, and the other of the last
/// network. Of the opening nothing is told. This project's own.
#[derive(Clone, Copy, Debug, Drop)]
pub struct PlainTeller<R, E> {
    records: R,
    end: E,
}

impl<R, E> PlainTeller<R, E> {
    /// These two tell.
    pub fn new(records: R, end: E) -> PlainTeller<R, E>
        ensures { result ≡ record { records = records; end = end } }
    {
        PlainTeller { records, end }
    }
}

impl<C: NodeController, R: RecordTeller, E: EndTeller<C>> Teller<C> for PlainTeller<R, E> {
    ghost use Rattle.network_run.specs.Plain.{plain_tale};

    ghost State = { Unit {0} };

    ghost state = { λ _. tt };

    ghost tale = { plain_tale R.lines E.last };

    ghost awaits = { λ _ _ _ _ _. Unit {0} };

    fn passes_over_empty_queues() {}

    fn open<K: Sink>(
        &mut self,
        _world: &World<C>,
        _names: &Topology,
        _writer: &mut ReportWriter,
        _sink: &mut K,
    ) -> Result<(), Stop> {
        Ok(())
    }

    fn before(&mut self, _world: &World<C>, _notes: &Notes, _event: &Event) {}

    fn after<K: Sink>(
        &mut self,
        context: &Context<'_>,
        _event: &Event,
        _world: &World<C>,
        notes: &Notes,
        writer: &mut ReportWriter,
        sink: &mut K,
    ) -> Result<(), Stop> {
        self.records
            .tell_records(notes.records(), context.names, writer, sink)
    }

    fn end<K: Sink>(
        &mut self,
        world: &World<C>,
        names: &Topology,
        ended: Ended,
        writer: &mut ReportWriter,
        sink: &mut K,
    ) -> Result<(), Stop> {
        self.end.tell_end(world, names, ended, writer, sink)
    }
}
