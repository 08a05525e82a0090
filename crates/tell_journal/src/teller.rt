//! Who tells a journal.

ghost use Rattle.std.specs.Prelude.{◌≡◌, IfOk};
ghost use Rattle.telling_model.specs.Placed.{placed};
ghost use Rattle.tell_journal.specs.Json.{json_line};
ghost use Rattle.tell_journal.specs.Journal.{event_value, is_carry_or_loss, is_told};
ghost use Rattle.tell_journal.specs.Seen.{deeds_in};

use crate::event::{write_front, write_put_and_records, write_taken_and_made};
use crate::last::end_line;
use crate::network::network_line;
use crate::put::put_line;
use lab_io::{ReportWriter, Sink, Stop};
use lab_text::Text;
use link_model::Notes;
use net_types::OutOfMemory;
use network_run::{Context, Teller};
use std::alloc::Global;
use tell_passing::Before;
use telling_model::{Ended, Standing};
use topology::Topology;
use world::{NodeController, World};
use world_model::Event;

/// An observer that writes the event log of a script as JSON Lines (its journal; RFC 8259). Of the
/// run it keeps what it saw before the event that is told, and the cells that this event put.
#[derive(Drop)]
pub struct JournalTeller {
    alloc: Global,
    before: Before,
    put: Vec<Standing>,
}

fn is_carry_or_loss(event: &Event) -> bool
    ensures { result ≡ is_carry_or_loss event.now }
{
    matches!(event, Event::Carry(_) | Event::Lose(_))
}

impl JournalTeller {
    /// Lines are made in this memory.
    pub fn new(alloc: Global) -> JournalTeller {
        JournalTeller {
            alloc,
            before: Before::nothing(),
            put: Vec::new(alloc),
        }
    }

    /// Whether the event that came did something.
    fn is_told(&self, event: &Event, notes: &Notes) -> bool
        ensures { result ≡ is_told event.now (deeds_in self.now.before self.now.put.items notes.now) }
    {
        !is_carry_or_loss(event)
            || self.before.taken().is_some()
            || self.before.made(notes) > 0
            || self.put.len() > 0
            || notes.len() > 0
    }

    /// The line of the event of this number.
    fn line(
        &self,
        context: &Context<'_>,
        number: u64,
        event: &Event,
        notes: &Notes,
    ) -> Result<Text, OutOfMemory>
        ensures { IfOk result (λ line. line ≡ json_line (event_value context.now.names.now number (placed context.now.line event.now) (deeds_in self.now.before self.now.put.items notes.now))) }
    {
        let names = context.names;
        let mut line = Text::new(self.alloc);
        write_front(self.alloc, &mut line, context, number, event)?;
        write_taken_and_made(&mut line, names, &self.before, notes)?;
        let put = self.put.as_slice();
        write_put_and_records(self.alloc, &mut line, names, put, notes.records())?;
        Ok(line)
    }
}

impl<C: NodeController> Teller<C> for JournalTeller {
    ghost use Rattle.tell_journal.specs.Journal.{journal_tale};
    ghost use Rattle.tell_passing.specs.Look.{IsBefore};

    ghost State = { Unit {0} };

    ghost state = { λ _. tt };

    ghost tale = { journal_tale };

    ghost awaits = { λ teller known topology w event. IsBefore topology w event teller.before };

    fn passes_over_empty_queues() {}

    fn open<K: Sink>(
        &mut self,
        _world: &World<C>,
        names: &Topology,
        writer: &mut ReportWriter,
        sink: &mut K,
    ) -> Result<(), Stop> {
        put_line(network_line(self.alloc, names), writer, sink)
    }

    fn before(&mut self, world: &World<C>, notes: &Notes, event: &Event) {
        self.before.look(world, notes, event);
    }

    fn after<K: Sink>(
        &mut self,
        context: &Context<'_>,
        event: &Event,
        world: &World<C>,
        notes: &Notes,
        writer: &mut ReportWriter,
        sink: &mut K,
    ) -> Result<(), Stop> {
        self.before.put_cells(world, &mut self.put)?;
        if !self.is_told(event, notes) {
            return Ok(());
        }
        put_line(
            self.line(context, world.events(), event, notes),
            writer,
            sink,
        )
    }

    fn end<K: Sink>(
        &mut self,
        world: &World<C>,
        _names: &Topology,
        ended: Ended,
        writer: &mut ReportWriter,
        sink: &mut K,
    ) -> Result<(), Stop> {
        put_line(end_line(self.alloc, ended, &world.counts()), writer, sink)
    }
}
