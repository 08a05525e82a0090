//! A console's session as a task that takes lines.

ghost use Rattle.std.specs.Prelude.{◌≡◌, ◌+◌, ◌++◌, ◌≤◌, Some, OnOk};
ghost use Rattle.lab_io.specs.Fault.{count_after};
ghost use Rattle.lab_io.specs.Puts.{StaysWithin, is_failed};
ghost use Rattle.line_by_line.specs.Steps.{Concludes};
ghost use Rattle.console_model.specs.Lab.{opened};
ghost use Rattle.console_run.specs.Report.{end_on};
ghost use Rattle.console_run.specs.Task.{CanTake, Puts, behind_line, lab_in_task, line_lines, refused_account};

use crate::lab_run::LabRun;
use crate::refusal::Refusal;
use crate::text::{write_end, write_refused};
use console_model::{ConsoleFault, ConsoleLine};
use gsmp_console::ConsoleScript;
use lab_io::{ReportWriter, Sink, Stop};
use lab_text::Text;
use line_by_line::{Ending, LineTask, Step};
use net_types::OutOfMemory;
use std::alloc::Global;

/// The lines so far, and the lab, once it is opened. It must be given up by [`ConsoleTask::abandon`].
#[must_use]
pub(crate) struct ConsoleTask {
    pub(crate) alloc: Global,
    pub(crate) script: ConsoleScript,
    pub(crate) running: Option<LabRun>,
}

/// Puts which line is refused, and why.
fn refuse<K: Sink>(
    alloc: Global,
    refusal: Refusal,
    writer: &mut ReportWriter,
    sink: &mut K,
) -> Result<Ending, Stop>
    ensures concluded { Concludes (refused_account refusal.number refusal.fault) result writer.old writer.new (K.written sink.old) (K.written sink.new) }
    ensures room { StaysWithin writer.old writer.new }
    ensures faults { K.faults sink.new ≡ count_after (is_failed result) (K.faults sink.old) }
{
    let mut out = Text::new(alloc);
    write_refused(&mut out, refusal)?;
    writer.put(out.as_slice(), sink)?;
    Ok(Ending::Refused)
}

impl ConsoleTask {
    ghost use Rattle.std.specs.Prelude.{ℕ, List, []};
    ghost use Rattle.console_run.specs.Report.{console_account};
    ghost use Rattle.console_run.specs.Task.{IsReady, task_account, task_octets};

    /// Nothing is read yet.
    pub(crate) fn new(alloc: Global) -> ConsoleTask
        ensures account { (lines : List (List ℕ)) → task_account result lines ≡ console_account lines }
        ensures octets { task_octets result ≡ 0 }
        ensures ready { IsReady result }
    {
        ConsoleTask {
            alloc,
            script: ConsoleScript::new(),
            running: None,
        }
    }

    /// The number of the next line.
    fn number(&self) -> u64
        ensures { result ≡ self.now.script.lines + 1 }
    {
        u64::from(self.script.lines()) + 1
    }

    /// The next line is refused for this.
    fn refusal(&self, fault: ConsoleFault) -> Refusal
        ensures { result ≡ record { number = self.now.script.lines + 1; fault = fault } }
    {
        Refusal {
            number: self.number(),
            fault,
        }
    }

    /// The lab is opened.
    fn open(&mut self, ports: u8) -> Result<(), OutOfMemory>
        requires { (1 ≤ ports) × (ports ≤ 8) }
        ensures opened { OnOk result (lab_in_task self.new ≡ Some (opened ports)) }
        ensures script { self.new.script ≡ self.old.script }
    {
        let running = LabRun::open(self.alloc, ports)?;
        if let Some(before) = self.running.replace(running) {
            before.abandon();
        }
        Ok(())
    }

    /// Does what a line says, and puts the lines of its events. Where it ends early, a front of them was put.
    fn take<K: Sink>(
        &mut self,
        said: ConsoleLine,
        writer: &mut ReportWriter,
        sink: &mut K,
    ) -> Result<(), Stop>
        requires { CanTake (lab_in_task self.old) said }
        ensures put { Puts result writer.old writer.new (K.written sink.old) (K.written sink.new) (line_lines (lab_in_task self.old) said) }
        ensures after { OnOk result (lab_in_task self.new ≡ behind_line (lab_in_task self.old) said) }
        ensures script { self.new.script ≡ self.old.script }
        ensures room { StaysWithin writer.old writer.new }
        ensures faults { K.faults sink.new ≡ count_after (is_failed result) (K.faults sink.old) }
    {
        match said {
            ConsoleLine::Blank => Ok(()),
            ConsoleLine::Ports(ports) => {
                self.open(ports)?;
                Ok(())
            }
            ConsoleLine::Event(event) => match &mut self.running {
                Some(running) => running.take_event(event, writer, sink),
                None => Ok(()),
            },
            ConsoleLine::Run(rounds) => match &mut self.running {
                Some(running) => running.take_rounds(rounds, writer, sink),
                None => Ok(()),
            },
        }
    }

    /// Writes the last line of a session whose lines are all read.
    fn write_end(&self, out: &mut Text) -> Result<(), OutOfMemory>
        ensures { OnOk result (out.new ≡ out.old ++ end_on (lab_in_task self.now) []) }
    {
        match &self.running {
            Some(running) => running.write_end(out),
            None => write_end(out, 0, 0, 0),
        }
    }

    /// Gives the lab up.
    pub(crate) fn abandon(self) {
        let ConsoleTask {
            alloc: _,
            script: _,
            running,
        } = self;
        if let Some(running) = running {
            running.abandon();
        }
    }
}

impl LineTask for ConsoleTask {
    ghost use Rattle.std.specs.Prelude.{refl};
    ghost use Rattle.console_run.specs.Task.{IsReady, lab_in_task, nothing_comes, task_account, task_octets};

    type Outcome = Ending;

    ghost account = { task_account };

    ghost octets = { task_octets };

    ghost can_go = { IsReady };

    fn line<K: Sink>(
        &mut self,
        line: &[u8],
        writer: &mut ReportWriter,
        sink: &mut K,
    ) -> Result<Step<Ending>, Stop> {
        let number = self.number();
        match self.script.line(line) {
            Ok(said) => {
                self.take(said, writer, sink)?;
                Ok(Step::Goes)
            }
            Err(fault) => {
                let ending = refuse(self.alloc, Refusal { number, fault }, writer, sink)?;
                Ok(Step::Ends(ending))
            }
        }
    }

    fn too_long<K: Sink>(
        &mut self,
        writer: &mut ReportWriter,
        sink: &mut K,
    ) -> Result<Ending, Stop> {
        let refusal = self.refusal(ConsoleFault::LineTooLong);
        refuse(self.alloc, refusal, writer, sink)
    }

    fn past_end<K: Sink>(
        &mut self,
        writer: &mut ReportWriter,
        sink: &mut K,
    ) -> Result<Ending, Stop> {
        let refusal = self.refusal(ConsoleFault::ScriptTooLong);
        refuse(self.alloc, refusal, writer, sink)
    }

    fn end<K: Sink>(&mut self, writer: &mut ReportWriter, sink: &mut K) -> Result<Ending, Stop> {
        let mut out = Text::new(self.alloc);
        self.write_end(&mut out)?;
        writer.put(out.as_slice(), sink)?;
        Ok(Ending::Done)
    }

    ghost is_open = { λ task. record { body = nothing_comes (lab_in_task task); is_ended = refl } };
}
