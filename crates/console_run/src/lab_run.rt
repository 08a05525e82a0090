//! A lab at work, with the notes of its run.

ghost use Rattle.std.specs.Prelude.{◌≡◌, ◌+◌, ◌*◌, ◌++◌, ◌<◌, ◌≤◌, OnOk, IfOk};
ghost use Rattle.std.specs.List.{repeat};
ghost use Rattle.lab_io.specs.Fault.{count_after};
ghost use Rattle.lab_io.specs.Puts.{StaysWithin, is_failed};
ghost use Rattle.world_model.specs.Limits.{event_limit};
ghost use Rattle.console_model.specs.Lab.{opened};
ghost use Rattle.console_model.specs.Steps.{lab_after};
ghost use Rattle.console_run.specs.Report.{event_lines, events_lines, lab_line};
ghost use Rattle.console_run.specs.Session.{round as round_events};
ghost use Rattle.console_run.specs.Task.{Puts, after_event, after_round, lab_of, round_lines};

use crate::text::{write_chances, write_end, write_replies};
use console_model::{ConsoleEvent, Side};
use gsmp_console::Lab;
use lab_io::{ReportWriter, Sink, Stop};
use lab_text::Text;
use link_model::Notes;
use net_types::OutOfMemory;
use std::alloc::Global;

/// A lab, and the notes of its run. It must be given up by [`LabRun::abandon`].
#[must_use]
pub(crate) struct LabRun {
    pub(crate) alloc: Global,
    pub(crate) lab: Lab,
    pub(crate) notes: Notes,
}

impl LabRun {
    /// A lab with port 0 and ports 1 to `ports`, 1 to 8, to which nothing came yet.
    pub(crate) fn open(alloc: Global, ports: u8) -> Result<LabRun, OutOfMemory>
        requires { (1 ≤ ports) × (ports ≤ 8) }
        ensures { IfOk result (λ run. lab_of run ≡ opened ports) }
    {
        let notes = Notes::open(alloc)?;
        let lab = Lab::open(alloc, ports)?;
        Ok(LabRun { alloc, lab, notes })
    }

    /// An event comes, and its lines are written.
    fn write_event(&mut self, event: ConsoleEvent, out: &mut Text) -> Result<(), OutOfMemory>
        requires { self.old.lab.events < event_limit }
        ensures lines { OnOk result (out.new ≡ out.old ++ event_lines (lab_of self.old) event) }
        ensures after { OnOk result (lab_of self.new ≡ after_event (lab_of self.old) event) }
        ensures count { OnOk result (self.new.lab.events ≡ self.old.lab.events + 1) }
    {
        let told = self.lab.answered();
        self.notes.clear();
        self.lab.step(&event, &mut self.notes)?;
        write_chances(out, self.notes.records())?;
        write_replies(out, &self.lab, told)
    }

    /// A cell is carried from the console, and then one from the switch; the lines are written.
    fn write_round(&mut self, out: &mut Text) -> Result<(), OutOfMemory>
        requires { self.old.lab.events + 2 ≤ event_limit }
        ensures lines { OnOk result (out.new ≡ out.old ++ round_lines (lab_of self.old)) }
        ensures after { OnOk result (lab_of self.new ≡ after_round (lab_of self.old)) }
        ensures count { OnOk result (self.new.lab.events ≡ self.old.lab.events + 2) }
    {
        self.write_event(ConsoleEvent::Carry(Side::Console), out)?;
        self.write_event(ConsoleEvent::Carry(Side::Switch), out)
    }

    /// An event comes, and its lines are put. Where it ends early, a front of them was put, and the lab can
    /// only be given up.
    pub(crate) fn take_event<K: Sink>(
        &mut self,
        event: ConsoleEvent,
        writer: &mut ReportWriter,
        sink: &mut K,
    ) -> Result<(), Stop>
        requires { self.old.lab.events < event_limit }
        ensures put { Puts result writer.old writer.new (K.written sink.old) (K.written sink.new) (event_lines (lab_of self.old) event) }
        ensures after { OnOk result (lab_of self.new ≡ after_event (lab_of self.old) event) }
        ensures room { StaysWithin writer.old writer.new }
        ensures faults { K.faults sink.new ≡ count_after (is_failed result) (K.faults sink.old) }
    {
        let mut out = Text::new(self.alloc);
        self.write_event(event, &mut out)?;
        writer.put(out.as_slice(), sink)?;
        Ok(())
    }

    /// A round comes, and its lines are put.
    fn take_round<K: Sink>(&mut self, writer: &mut ReportWriter, sink: &mut K) -> Result<(), Stop>
        requires { self.old.lab.events + 2 ≤ event_limit }
        ensures put { Puts result writer.old writer.new (K.written sink.old) (K.written sink.new) (round_lines (lab_of self.old)) }
        ensures after { OnOk result (lab_of self.new ≡ after_round (lab_of self.old)) }
        ensures count { OnOk result (self.new.lab.events ≡ self.old.lab.events + 2) }
        ensures room { StaysWithin writer.old writer.new }
        ensures faults { K.faults sink.new ≡ count_after (is_failed result) (K.faults sink.old) }
    {
        let mut out = Text::new(self.alloc);
        self.write_round(&mut out)?;
        writer.put(out.as_slice(), sink)?;
        Ok(())
    }

    /// So many rounds come, and their lines are put as they come. Where they end early, a front of them was
    /// put, and the lab can only be given up.
    pub(crate) fn take_rounds<K: Sink>(
        &mut self,
        count: u32,
        writer: &mut ReportWriter,
        sink: &mut K,
    ) -> Result<(), Stop>
        requires { self.old.lab.events + 2 * count ≤ event_limit }
        ensures put { Puts result writer.old writer.new (K.written sink.old) (K.written sink.new) (events_lines (lab_of self.old) (repeat count round_events)) }
        ensures after { OnOk result (lab_of self.new ≡ lab_after (lab_of self.old) (repeat count round_events)) }
        ensures room { StaysWithin writer.old writer.new }
        ensures faults { K.faults sink.new ≡ count_after (is_failed result) (K.faults sink.old) }
    {
        for _turn in 0..count {
            self.take_round(writer, sink)?;
        }
        Ok(())
    }

    /// Writes how many commands, answers and branches there are.
    pub(crate) fn write_end(&self, out: &mut Text) -> Result<(), OutOfMemory>
        ensures { OnOk result (out.new ≡ out.old ++ lab_line (lab_of self.now)) }
    {
        write_end(
            out,
            self.lab.commands(),
            self.lab.answered(),
            self.lab.branches(),
        )
    }

    /// Gives the lab up.
    pub(crate) fn abandon(self) {
        let LabRun {
            alloc: _,
            lab,
            notes: _,
        } = self;
        lab.abandon();
    }
}
