//! The lab.

ghost use Rattle.std.specs.Prelude.{◌≡◌, ◌-◌, ◌<◌, ◌≤◌, ◌⊎◌, ◌↔◌, cond, count_by, length, slice_get, true, OnOk, IfOk, IsNone};
ghost use Rattle.branch_desk.specs.Requests.{has_function};
ghost use Rattle.console_model.specs.Lab.{branch_count, has_branch, input_at, inputs_on, nothing_noted, opened};
ghost use Rattle.console_model.specs.Steps.{acts, carries, commands, loses, restarts, step, ticks};
ghost use Rattle.crossbar_model.specs.Crossbar.{output_of};
ghost use Rattle.gsmp_console.specs.Bench.{Draws, HasLeft, carried_first, lab_in, reached};
ghost use Rattle.link_model.specs.Notes.{noted};

use crate::bench::Bench;
use atm_cells::Cell;
use console_model::{ConsoleEvent, Reply, Side};
use gsmp_adjacency::Answer as AdjacencyAnswer;
use gsmp_wire::Request;
use link_model::{Cause, Notes, Record};
use net_types::{
    CONTROL_PORT, Channel, End, GREATEST_LABEL_VCI, LAST_PORT, Mark, OutOfMemory, PortNo,
};
use std::alloc::Global;
use std::marker::Model;

/// No switch connects a VCI from here on.
const VCIS: u16 = GREATEST_LABEL_VCI + 1;

/// Notes that a cell of this mark is lost.
fn note_lost(mark: Mark, notes: &mut Notes) -> Result<(), OutOfMemory>
    ensures { OnOk result (notes.new ≡ noted notes.old (Record.Loss mark Cause.Lost)) }
{
    notes.push(Record::Loss {
        mark,
        cause: Cause::Lost,
    })
}

impl Bench {
    /// A command joins those that wait, and is asked at once where nothing is in its way.
    fn command(&mut self, command: Request, notes: &mut Notes) -> Result<(), OutOfMemory>
        requires left { HasLeft self.old }
        requires function { has_function command ≡ true }
        ensures taken { OnOk result (lab_in self.new notes.new ≡ commands (lab_in self.old notes.old) command) }
        ensures drawn { Draws 20 1000000 1 self.old self.new }
    {
        self.commands.push(command)?;
        self.ask_next(notes)
    }

    /// A cell comes to port 0 of the switch.
    #[tactic(auto, unfolding(crate::specs::Bench::reached))]
    fn reach(&mut self, cell: &Cell, notes: &mut Notes) -> Result<(), OutOfMemory>
        requires { HasLeft self.old }
        ensures came { OnOk result (lab_in self.new notes.new ≡ reached (lab_in self.old notes.old) cell.now) }
        ensures drawn { Draws 20 1000000 1 self.old self.new }
    {
        self.switch
            .receive(CONTROL_PORT, cell, &mut self.numbers, notes)
    }

    /// The first cell that waits for the switch comes there.
    fn carry_down(&mut self, notes: &mut Notes) -> Result<(), OutOfMemory>
        requires { HasLeft self.old }
        ensures carried { OnOk result (lab_in self.new notes.new ≡ carried_first (lab_in self.old notes.old)) }
        ensures drawn { Draws 20 1000000 1 self.old self.new }
    {
        match self.console.pop() {
            Some(cell) => self.reach(&cell, notes),
            None => Ok(()),
        }
    }

    /// The first cell that waits for the console comes there.
    fn carry_up(&mut self, notes: &mut Notes) -> Result<(), OutOfMemory>
        requires { HasLeft self.old }
        ensures carried { OnOk result (lab_in self.new notes.new ≡ carries (lab_in self.old notes.old) Side.Switch) }
        ensures drawn { Draws 20 1000000 1 self.old self.new }
    {
        match self.switch.pop(CONTROL_PORT) {
            Some(cell) => self.receive(&cell, notes),
            None => Ok(()),
        }
    }

    /// The first cell of a side's queue is handed to the other side.
    #[tactic(auto, unfolding(crate::specs::Bench::carried_first))]
    fn carry(&mut self, side: Side, notes: &mut Notes) -> Result<(), OutOfMemory>
        requires { HasLeft self.old }
        ensures carried { OnOk result (lab_in self.new notes.new ≡ carries (lab_in self.old notes.old) side) }
        ensures drawn { Draws 20 1000000 1 self.old self.new }
    {
        match side {
            Side::Console => self.carry_down(notes),
            Side::Switch => self.carry_up(notes),
        }
    }

    /// The first cell that waits for the switch is lost.
    fn lose_down(&mut self, notes: &mut Notes) -> Result<(), OutOfMemory>
        ensures lost { OnOk result (lab_in self.new notes.new ≡ loses (lab_in self.old notes.old) Side.Console) }
        ensures drawn { Draws 0 0 0 self.old self.new }
    {
        let Some(cell) = self.console.pop() else {
            return Ok(());
        };
        note_lost(cell.mark, notes)
    }

    /// The first cell that waits for the console is lost.
    fn lose_up(&mut self, notes: &mut Notes) -> Result<(), OutOfMemory>
        ensures lost { OnOk result (lab_in self.new notes.new ≡ loses (lab_in self.old notes.old) Side.Switch) }
        ensures drawn { Draws 0 0 0 self.old self.new }
    {
        let Some(cell) = self.switch.pop(CONTROL_PORT) else {
            return Ok(());
        };
        note_lost(cell.mark, notes)
    }

    /// The first cell of a side's queue is lost.
    fn lose(&mut self, side: Side, notes: &mut Notes) -> Result<(), OutOfMemory>
        ensures lost { OnOk result (lab_in self.new notes.new ≡ loses (lab_in self.old notes.old) side) }
        ensures drawn { Draws 0 0 0 self.old self.new }
    {
        match side {
            Side::Console => self.lose_down(notes),
            Side::Switch => self.lose_up(notes),
        }
    }

    /// A tick of the console: its adjacency first, and then the request that stands is sent again.
    fn tick_console(&mut self, notes: &mut Notes) -> Result<(), OutOfMemory>
        requires { HasLeft self.old }
        ensures ticked { OnOk result (lab_in self.new notes.new ≡ ticks (lab_in self.old notes.old) Side.Console) }
        ensures drawn { Draws 20 1000000 1 self.old self.new }
    {
        let answer = self.console.tick();
        if let AdjacencyAnswer::Reset = answer {
            self.reset();
            return Ok(());
        }
        self.follow(answer, notes)?;
        if self.console.is_estab() {
            self.send_standing(notes)
        } else {
            Ok(())
        }
    }

    /// A tick of a side.
    fn tick(&mut self, side: Side, notes: &mut Notes) -> Result<(), OutOfMemory>
        requires { HasLeft self.old }
        ensures ticked { OnOk result (lab_in self.new notes.new ≡ ticks (lab_in self.old notes.old) side) }
        ensures drawn { Draws 20 1000000 1 self.old self.new }
    {
        match side {
            Side::Console => self.tick_console(notes),
            Side::Switch => self.switch.tick(&mut self.numbers, notes),
        }
    }

    /// The console starts again.
    fn restart(&mut self, notes: &mut Notes) -> Result<(), OutOfMemory>
        requires { HasLeft self.old }
        ensures restarted { OnOk result (lab_in self.new notes.new ≡ restarts (lab_in self.old notes.old)) }
        ensures drawn { Draws 20 1000000 1 self.old self.new }
    {
        self.reset();
        self.console.cut(notes)
    }

    /// An event comes.
    fn act(&mut self, event: ConsoleEvent, notes: &mut Notes) -> Result<(), OutOfMemory>
        requires { HasLeft self.old }
        ensures acted { OnOk result (lab_in self.new notes.new ≡ acts (lab_in self.old notes.old) event) }
        ensures drawn { Draws 20 1000000 1 self.old self.new }
    {
        match event {
            ConsoleEvent::Add { input, output } => {
                self.command(Request::AddBranch { input, output }, notes)
            }
            ConsoleEvent::Move { input, from, to } => {
                self.command(Request::MoveBranch { input, from, to }, notes)
            }
            ConsoleEvent::Delete { input } => self.command(Request::DeleteTree { input }, notes),
            ConsoleEvent::Clear { port } => self.command(Request::DeleteAll { port }, notes),
            ConsoleEvent::Verify { input } => self.command(Request::VerifyTree { input }, notes),
            ConsoleEvent::Carry(side) => self.carry(side, notes),
            ConsoleEvent::Lose(side) => self.lose(side, notes),
            ConsoleEvent::Tick(side) => self.tick(side, notes),
            ConsoleEvent::Restart => self.restart(notes),
        }
    }
}

/// A test bench of a switch (a lab): a console, its switch, and the two queues between them. This
/// project's own. It must be given up by [`Lab::abandon`].
#[must_use]
#[derive(Debug)]
pub struct Lab {
    bench: Bench,
}

impl Model for Lab {
    ghost use Rattle.std.specs.FinMap as map;
    ghost use Rattle.std.specs.Coded.{codes};
    ghost use Rattle.crossbar_model.specs.Channels.{end_cmp};
    ghost use Rattle.net_types.specs.contracts.channel.End as end_contract;
    ghost use Rattle.crossbar_model.specs.contracts.branch.Branch as branch_contract;
    ghost use Rattle.gsmp_console.specs.Bench.{Held, IsPaced};

    ghost Value = { Held };

    ghost coded = { Prim.hlevel (codes, map.code {R = end_cmp} end_contract.the_row.coded branch_contract.the_row.coded) };

    ghost view = { λ l. l.bench };

    ghost invariant = { λ l. IsPaced l.bench };
}

impl Lab {
    /// A console and a switch with port 0 and ports 1 to `ports`, 1 to 8: no command, no branch, no cell.
    /// Both have regions of 1,024 slots.
    pub fn open(alloc: Global, ports: u8) -> Result<Lab, OutOfMemory>
        requires { (1 ≤ ports) × (ports ≤ 8) }
        ensures { IfOk result (λ lab. lab_in lab nothing_noted ≡ opened ports) }
    {
        Ok(Lab {
            bench: Bench::open(alloc, ports)?,
        })
    }

    /// An event comes. There were fewer than 100,000,000 before. After want of memory the lab can only be abandoned.
    pub fn step(&mut self, event: &ConsoleEvent, notes: &mut Notes) -> Result<(), OutOfMemory>
        requires { self.old.events < 100000000 }
        ensures { OnOk result (lab_in self.new notes.new ≡ step (lab_in self.old notes.old) event.now) }
    {
        let result = self.bench.act(*event, notes);
        self.bench.events += 1;
        result
    }

    /// How many events there were.
    pub fn events(&self) -> u32
        ensures { result ≡ self.now.events }
    {
        self.bench.events
    }

    /// How many commands there were.
    pub fn commands(&self) -> usize
        ensures { result ≡ length self.now.commands }
    {
        self.bench.commands.len()
    }

    /// How many of them are answered.
    pub fn answered(&self) -> usize
        ensures { result ≡ length self.now.answers }
    {
        self.bench.answers.len()
    }

    /// The answer of the command with this number, counted from 1; `None` exactly where the number is 0
    /// or above [`Lab::answered`].
    pub fn answer(&self, number: usize) -> Option<Reply>
        ensures reply { 0 < number → result ≡ slice_get self.now.answers (number - 1) }
        ensures none { IsNone result ↔ ((number ≡ 0) ⊎ (length self.now.answers < number)) }
    {
        if number == 0 {
            return None;
        }
        self.bench.answers.get(number - 1).copied()
    }

    /// Where the cells of an input go, by its port and the VCI of VPI 0. `None` exactly where it has no
    /// branch.
    pub fn branch(&self, port: PortNo, vci: u16) -> Option<End>
        ensures { result ≡ output_of self.now.switch.crossbar.branches (record { port = port; channel = record { vpi = 0; vci = vci } }) }
    {
        let channel = Channel { vpi: 0, vci };
        self.bench.switch.branch(End { port, channel })
    }

    /// How many branches an input has: 0 or 1.
    fn count_of(&self, port: u8, vci: u16) -> usize
        ensures { result ≡ cond (has_branch self.now.switch (input_at port vci)) 1 0 }
    {
        if self.branch(PortNo(port), vci).is_some() {
            1
        } else {
            0
        }
    }

    /// How many of a port's inputs have a branch.
    fn branches_on(&self, port: u8) -> usize
        ensures count { result ≡ count_by (has_branch self.now.switch) (inputs_on 1024 port) }
        ensures few { result ≤ 1024 }
    {
        let mut count: usize = 0;
        for vci in 0..VCIS {
            count += self.count_of(port, vci);
        }
        count
    }

    /// How many branches the switch has of inputs that a command can name.
    pub fn branches(&self) -> usize
        ensures { result ≡ branch_count self.now.switch }
    {
        let mut count: usize = 0;
        for place in 0..LAST_PORT {
            count += self.branches_on(place + 1);
        }
        count
    }

    /// Gives up all cells.
    pub fn abandon(self) {
        let Lab { bench } = self;
        bench.abandon();
    }
}
