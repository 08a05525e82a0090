//! The replay of a script, line by line.

ghost use Rattle.std.specs.Prelude.{◌≡◌, ◌+◌, ◌<◌, ◌≤◌, ◌^◌, ℕ, List, Option, None, Result, Ok, IfOk, IsSomeAnd, OnErr, OnOk, is_ok, true, false};
ghost use Rattle.lab_io.specs.Fault.{count_after};
ghost use Rattle.lab_io.specs.Report.{Writer};
ghost use Rattle.lab_io.specs.Puts.{Puts, StaysWithin, is_failed};
ghost use Rattle.script_model.specs.declared.line.Line.{Line as Says};
ghost use Rattle.script_model.specs.declared.refusal.LineRefusal.{LineRefusal as Name};
ghost use Rattle.script_model.specs.declared.refusal.Refused.TheVariants.{Line as LineIs};
ghost use Rattle.script_model.specs.Reading.{state_after};
ghost use Rattle.script_model.specs.Sayable.{IsSayable};
ghost use Rattle.script_model.specs.Script.{Script, number_of};
ghost use Rattle.script_model.specs.State.{ScriptState as SoFar};
ghost use Rattle.script_text.specs.Counts.{HasRoom};
ghost use Rattle.network_run.specs.telling_model.Placed.{Placed, events_in};
ghost use Rattle.world.specs.declared.counts.Meter.{Meter as Reading};
ghost use Rattle.script_model.specs.world_model.network_model.declared.event.Event.{Event};
ghost use Rattle.script_model.specs.world_model.World.{opened};
ghost use Rattle.world.specs.Network.{no_notes, world_of};
ghost use Rattle.world.specs.Running.{Runs};
ghost use Rattle.network_replay.specs.Lines.{HasCounted, says_by, unsaid};
ghost use Rattle.network_replay.specs.Along.{CanTake, GoesOn, HasNetwork, HasStepped, IsAlong, IsBegun, IsGoing, IsKept, IsOpen, IsRead, IsReading, IsReady, IsWhole, Knows, last_told, opening_known, opening_told};

use crate::form::{LineForm, read_by};
use crate::line_run::{has_events, run_line};
use crate::policy::PolicyChoice;
use lab_io::{Sink, Stop};
use link_model::Notes;
use net_types::OutOfMemory;
use network_run::{Context, Ended, Teller, Told};
use script_model::{Line, LineRefusal, Refused};
use script_text::{ReadFault, ScriptState};
use std::alloc::Global;
use world::{Meter, NodeController, World};

/// A simulation of a scenario (a replay): what the lines of its script so far say, and the network
/// that they describe, which is opened for the first line of events or at the script's end. This
/// project's own. It must be given up by [`Replay::abandon`].
#[must_use]
pub struct Replay<C> {
    alloc: Global,
    state: ScriptState,
    notes: Notes,
    world: Option<World<C>>,
}

impl<C: NodeController> Replay<C> {
    /// No line is taken yet.
    pub fn open(alloc: Global) -> Result<Replay<C>, OutOfMemory>
        ensures { IfOk result IsBegun }
    {
        Ok(Replay {
            alloc,
            state: ScriptState::new(alloc)?,
            notes: Notes::open(alloc)?,
            world: None,
        })
    }

    /// Opens the network, and has it told.
    fn open_network<N: PolicyChoice<C>, T: Teller<C>, K: Sink>(
        &self,
        choice: &N,
        told: &mut Told<T>,
        sink: &mut K,
    ) -> Result<World<C>, Stop>
        ensures world { IfOk result (λ n. world_of C.seen n no_notes ≡ opened (N.chosen choice.now self.now.state.topology) self.now.state.topology) }
        ensures runs { IfOk result (λ n. Runs C.seen self.now.state.topology n) }
        ensures put { Puts result told.old.writer told.new.writer (K.written sink.old) (K.written sink.new) (T.tale.opens self.now.state.topology (opened (N.chosen choice.now self.now.state.topology) self.now.state.topology)).octets }
        ensures known { OnOk result (T.state told.new.teller ≡ (T.tale.opens self.now.state.topology (opened (N.chosen choice.now self.now.state.topology) self.now.state.topology)).state) }
        ensures room { StaysWithin told.old.writer told.new.writer }
        ensures faults { K.faults sink.new ≡ count_after (is_failed result) (K.faults sink.old) }
    {
        let topology = self.state.topology();
        let world = World::open(self.alloc, topology, choice.choose(topology))?;
        match told.teller.open(&world, topology, &mut told.writer, sink) {
            Ok(()) => Ok(world),
            Err(stop) => {
                world.abandon();
                Err(stop)
            }
        }
    }

    /// Opens the network where there is none yet, and has it told.
    fn open_first<N: PolicyChoice<C>, T: Teller<C>, K: Sink>(
        &mut self,
        choice: &N,
        told: &mut Told<T>,
        sink: &mut K,
    ) -> Result<(), Stop>
        ensures opened { (state : SoFar) (events : List Event) → HasNetwork C.seen (N.chosen choice.now) state self.old.notes self.old.world events → self.old.state.topology ≡ state.topology → OnOk result (IsSomeAnd self.new.world (λ n. IsOpen C.seen (N.chosen choice.now state.topology) state self.old.notes n events)) }
        ensures unopened { OnErr result (self.new ≡ self.old) }
        ensures put { Puts result told.old.writer told.new.writer (K.written sink.old) (K.written sink.new) (opening_told T.tale (N.chosen choice.now) self.old.state.topology self.old.world) }
        ensures known { OnOk result (T.state told.new.teller ≡ opening_known T.tale (N.chosen choice.now) self.old.state.topology self.old.world (T.state told.old.teller)) }
        ensures rest { self.new ≡ record self.old { world = self.new.world } }
        ensures room { StaysWithin told.old.writer told.new.writer }
        ensures faults { K.faults sink.new ≡ count_after (is_failed result) (K.faults sink.old) }
    {
        if self.world.is_some() {
            return Ok(());
        }
        let world = self.open_network(choice, told, sink)?;
        if let Some(before) = self.world.replace(world) {
            before.abandon();
        }
        Ok(())
    }

    /// Steps the events of a line that was read.
    fn run<N: PolicyChoice<C>, T: Teller<C>, K: Sink>(
        &mut self,
        said: &Line,
        choice: &N,
        told: &mut Told<T>,
        sink: &mut K,
        meter: &mut Meter,
    ) -> Result<(), Stop>
        requires { IsReady C.seen (N.chosen choice.now) self.old said.now }
        ensures state { self.new.state ≡ self.old.state }
        ensures going { OnOk result (IsGoing C.seen (N.chosen choice.now) self.new) }
        ensures stepped { (state : SoFar) (line : List ℕ) (placed : List Placed) → HasNetwork C.seen (N.chosen choice.now) state self.old.notes self.old.world (events_in placed) → Knows T.tale (N.chosen choice.now) state placed (T.state told.old.teller) → self.old.state ≡ state_after state line (Ok said.now) → IsSayable state said.now → HasStepped C.seen T.state T.tale (N.chosen choice.now) state said.now placed result self.old self.new told.old told.new (K.written sink.old) (K.written sink.new) meter.old meter.new }
        ensures room { StaysWithin told.old.writer told.new.writer }
        ensures faults { K.faults sink.new ≡ count_after (is_failed result) (K.faults sink.old) }
    {
        if !has_events(said) {
            return Ok(());
        }
        within_limits(&self.state);
        self.open_first(choice, told, sink)?;
        match &mut self.world {
            Some(world) => {
                let context = Context {
                    names: self.state.topology(),
                    line: self.state.lines(),
                };
                run_line(said, &context, world, &mut self.notes, told, sink, meter)
            }
            None => unreachable!(),
        }
    }

    /// What becomes of a line that says nothing.
    fn unsaid(&self, fault: ReadFault) -> Result<Option<Refused>, Stop>
        ensures { result ≡ unsaid self.now.state.lines fault }
    {
        match fault {
            ReadFault::Refused(name) => {
                let number = self.state.lines();
                Ok(Some(Refused::Line { number, name }))
            }
            ReadFault::OutOfMemory(error) => Err(Stop::OutOfMemory(error)),
        }
    }

    /// Takes a line that was read.
    fn take<N: PolicyChoice<C>, T: Teller<C>, K: Sink>(
        &mut self,
        read: Result<Line, ReadFault>,
        choice: &N,
        told: &mut Told<T>,
        sink: &mut K,
        meter: &mut Meter,
    ) -> Result<Option<Refused>, Stop>
        requires ready { CanTake C.seen (N.chosen choice.now) self.old read }
        ensures along { (says : SoFar → List ℕ → Result Says Name) (state : SoFar) (first : Writer) (start : Option (List ℕ)) (before : Reading) (lines : List (List ℕ)) (line : List ℕ) → IsReading says → IsAlong C.seen T.state T.tale (N.chosen choice.now) says first start before lines (record self.old { state = state }) told.old (K.written sink.old) meter.old → IsRead says state line read self.old.state → GoesOn C.seen T.state T.tale (N.chosen choice.now) says first start before lines line result self.new told.new (K.written sink.new) meter.new }
        ensures kept { (says : SoFar → List ℕ → Result Says Name) (state : SoFar) (first : Writer) (start : Option (List ℕ)) (before : Reading) (lines : List (List ℕ)) (line : List ℕ) → IsReading says → IsAlong C.seen T.state T.tale (N.chosen choice.now) says first start before lines (record self.old { state = state }) told.old (K.written sink.old) meter.old → IsRead says state line read self.old.state → IsKept (N.chosen choice.now) says before lines line result meter.new }
        ensures going { OnOk result (IsGoing C.seen (N.chosen choice.now) self.new) }
        ensures state { self.new.state ≡ self.old.state }
        ensures said { result ≡ Ok None → is_ok read ≡ true }
        ensures room { StaysWithin told.old.writer told.new.writer }
        ensures faults { K.faults sink.new ≡ count_after (is_failed result) (K.faults sink.old) }
    {
        match read {
            Ok(said) => {
                self.run(&said, choice, told, sink, meter)?;
                Ok(None)
            }
            Err(fault) => self.unsaid(fault),
        }
    }

    /// Takes the next line, which has this form: steps its events, which are told, or answers why it is
    /// refused. Behind a refused line no other is taken. Where it ends early, a front
    /// of what is told was put, the meter is at one of the script's events or as it was, and the replay can
    /// only be given up.
    pub fn line<N: PolicyChoice<C>, T: Teller<C>, K: Sink>(
        &mut self,
        form: LineForm,
        line: &[u8],
        choice: &N,
        told: &mut Told<T>,
        sink: &mut K,
        meter: &mut Meter,
    ) -> Result<Option<Refused>, Stop>
        requires going { IsGoing C.seen (N.chosen choice.now) self.old }
        requires room { HasRoom self.old.state line.now }
        ensures along { (first : Writer) (start : Option (List ℕ)) (before : Reading) (lines : List (List ℕ)) → IsAlong C.seen T.state T.tale (N.chosen choice.now) (says_by form) first start before lines self.old told.old (K.written sink.old) meter.old → GoesOn C.seen T.state T.tale (N.chosen choice.now) (says_by form) first start before lines line.now result self.new told.new (K.written sink.new) meter.new }
        ensures kept { (first : Writer) (start : Option (List ℕ)) (before : Reading) (lines : List (List ℕ)) → IsAlong C.seen T.state T.tale (N.chosen choice.now) (says_by form) first start before lines self.old told.old (K.written sink.old) meter.old → IsKept (N.chosen choice.now) (says_by form) before lines line.now result meter.new }
        ensures going { OnOk result (IsGoing C.seen (N.chosen choice.now) self.new) }
        ensures counted { result ≡ Ok None → HasCounted self.old.state line.now self.new.state }
        ensures room { StaysWithin told.old.writer told.new.writer }
        ensures faults { K.faults sink.new ≡ count_after (is_failed result) (K.faults sink.old) }
    {
        let read = read_by(&mut self.state, form, line);
        self.take(read, choice, told, sink, meter)
    }

    /// Whether 32 bits count the octets and the lines with this one.
    pub fn has_room(&self, line: &[u8]) -> bool
        ensures room { result ≡ true → HasRoom self.now.state line.now }
        ensures no_room { result ≡ false → HasRoom self.now.state line.now → ⊥ }
    {
        line.len() <= (u32::MAX - self.state.octets()) as usize && self.state.lines() < u32::MAX
    }

    /// The next line is refused by this name.
    pub fn refused(&self, name: LineRefusal) -> Refused
        requires { self.now.state.lines + 1 < 2 ^ 32 }
        ensures { result ≡ LineIs (number_of self.now.state) name }
    {
        Refused::Line {
            number: self.state.lines() + 1,
            name,
        }
    }

    /// Has the end told of a script that was read to its end, or to what is refused in it; before that the
    /// network, which is opened here where there was no line of events.
    pub fn end<N: PolicyChoice<C>, T: Teller<C>, K: Sink>(
        &mut self,
        refused: Option<Refused>,
        choice: &N,
        told: &mut Told<T>,
        sink: &mut K,
    ) -> Result<(), Stop>
        requires going { IsGoing C.seen (N.chosen choice.now) self.old }
        ensures put { (script : Script) (placed : List Placed) → IsWhole C.seen (N.chosen choice.now) script placed refused self.old → Puts result told.old.writer told.new.writer (K.written sink.old) (K.written sink.new) (last_told T.tale (N.chosen choice.now script.topology) script placed) }
        ensures room { StaysWithin told.old.writer told.new.writer }
        ensures faults { K.faults sink.new ≡ count_after (is_failed result) (K.faults sink.old) }
    {
        self.open_first(choice, told, sink)?;
        let ended = Ended {
            event_lines: self.state.event_lines(),
            refused,
        };
        let names = self.state.topology();
        match &self.world {
            Some(world) => told.teller.end(world, names, ended, &mut told.writer, sink),
            None => unreachable!(),
        }
    }

    /// Gives the network up.
    pub fn abandon(self) {
        let Replay {
            alloc: _,
            state: _,
            notes: _,
            world,
        } = self;
        if let Some(world) = world {
            world.abandon();
        }
    }
}

/// The counts of a script are within their limits.
fn within_limits(state: &ScriptState)
    ensures event_lines { state.now.event_lines ≤ 200000 }
    ensures rounds { state.now.rounds ≤ 100000 }
    ensures ticks { state.now.ticks ≤ 2000000 }
{
    let _event_lines = state.event_lines();
    let _rounds = state.rounds();
    let _ticks = state.ticks();
}
