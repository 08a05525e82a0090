//! What comes to the console.

ghost use Rattle.std.specs.Prelude.{◌≡◌, OnOk};
ghost use Rattle.console_model.specs.Hearing.{answer_comes, answers, cell_comes, gsmp_cell, holds, reply_in, steps, told, told_end};
ghost use Rattle.gsmp_adjacency.specs.Greeting.{gsmp_received};
ghost use Rattle.gsmp_console.specs.Bench.{Draws, HasLeft, fails_at, lab_in};

use crate::bench::Bench;
use atm_cells::Cell;
use console_model::Reply;
use controller_requests::Answer;
use gsmp_wire::{BranchKind, Fault, Message};
use link_model::{Cause, Layer, Notes, Record};
use net_types::{Channel, DEFAULT_CHANNEL, End, Greeting, NodeId, OutOfMemory, PortNo};
use refusal_names::gsmp_refusal;

/// Where an input leads, as a message tells it. A port has 8 bits: a greater one is shown as 255.
fn told_end(port: u32, channel: Channel) -> End
    ensures { result ≡ told_end port channel }
{
    End {
        port: PortNo(port.min(255) as u8),
        channel,
    }
}

/// What a success answers to a command.
fn reply_in(message: &Message) -> Reply
    ensures { result ≡ reply_in message.now }
{
    match message {
        Message::Branch {
            kind: BranchKind::Verify,
            output_port,
            output,
            ..
        } => Reply::At(told_end(*output_port, *output)),
        _ => Reply::Done,
    }
}

impl Bench {
    /// Answers the command that stood, and asks the next one.
    fn answer(&mut self, reply: Reply, notes: &mut Notes) -> Result<(), OutOfMemory>
        requires { HasLeft self.old }
        ensures answered { OnOk result (lab_in self.new notes.new ≡ answers (lab_in self.old notes.old) reply) }
        ensures drawn { Draws 1 1 1 self.old self.new }
    {
        self.answers.push(reply)?;
        self.ask_next(notes)
    }

    /// A request failed, as its answer tells: a command, or All Ports.
    fn fail(&mut self, message: &Message, code: u8, notes: &mut Notes) -> Result<(), OutOfMemory>
        requires { HasLeft self.old }
        ensures failed { OnOk result (lab_in self.new notes.new ≡ fails_at (lab_in self.old notes.old) message.now code) }
        ensures drawn { Draws 1 1 1 self.old self.new }
    {
        match message {
            Message::AllPorts { .. } => {
                self.reset();
                Ok(())
            }
            Message::Adjacency(_)
            | Message::Branch { .. }
            | Message::Move { .. }
            | Message::Port { .. } => self.answer(Reply::Failed { code }, notes),
        }
    }

    /// Takes a message of the switch that isn't of the adjacency; outside Estab none is taken.
    fn take_answer(&mut self, message: &Message, notes: &mut Notes) -> Result<(), OutOfMemory>
        requires { HasLeft self.old }
        ensures taken { OnOk result (lab_in self.new notes.new ≡ answer_comes (lab_in self.old notes.old) message.now) }
        ensures drawn { Draws 1 2 1 self.old self.new }
    {
        if !self.console.is_estab() {
            return Ok(());
        }
        match self.console.take_answer(message) {
            Answer::Unknown => Ok(()),
            Answer::Done(done) => {
                done.redeem();
                self.answer(reply_in(message), notes)
            }
            Answer::Ports(_ports, done) => {
                done.redeem();
                self.ask_next(notes)
            }
            Answer::Failed { number: _, code } => self.fail(message, code, notes),
        }
    }

    /// Hears a message of the adjacency.
    fn greeted(&mut self, greeting: &Greeting, notes: &mut Notes) -> Result<(), OutOfMemory>
        requires { HasLeft self.old }
        ensures heard { OnOk result (lab_in self.new notes.new ≡ steps (lab_in self.old notes.old) (gsmp_received self.old.console.adjacency greeting.now)) }
        ensures drawn { Draws 1 2 1 self.old self.new }
    {
        let answer = self.console.hear(greeting);
        self.follow(answer, notes)
    }

    /// Takes a message.
    fn tell(&mut self, message: &Message, notes: &mut Notes) -> Result<(), OutOfMemory>
        requires { HasLeft self.old }
        ensures told { OnOk result (lab_in self.new notes.new ≡ told (lab_in self.old notes.old) message.now) }
        ensures drawn { Draws 1 2 1 self.old self.new }
    {
        match message {
            Message::Adjacency(greeting) => self.greeted(greeting, notes),
            Message::Branch { .. }
            | Message::Move { .. }
            | Message::Port { .. }
            | Message::AllPorts { .. } => self.take_answer(message, notes),
        }
    }

    /// Takes what a frame holds: a message, or nothing, which is noted.
    fn hold(&mut self, held: Result<Message, Fault>, notes: &mut Notes) -> Result<(), OutOfMemory>
        requires { HasLeft self.old }
        ensures held { OnOk result (lab_in self.new notes.new ≡ holds (lab_in self.old notes.old) held) }
        ensures drawn { Draws 1 2 1 self.old self.new }
    {
        match held {
            Ok(message) => self.tell(&message, notes),
            Err(fault) => notes.push(Record::Bad {
                node: NodeId(1),
                layer: Layer::Gsmp,
                name: gsmp_refusal(fault),
            }),
        }
    }

    /// Takes a cell of the GSMP channel.
    fn take_cell(&mut self, cell: &Cell, notes: &mut Notes) -> Result<(), OutOfMemory>
        requires { HasLeft self.old }
        ensures taken { OnOk result (lab_in self.new notes.new ≡ gsmp_cell (lab_in self.old notes.old) cell.now) }
        ensures drawn { Draws 1 2 1 self.old self.new }
    {
        match self.console.take_cell(cell, notes)? {
            Some(held) => self.hold(held, notes),
            None => Ok(()),
        }
    }

    /// Takes a cell that comes from the switch; one of another channel is dropped.
    pub(crate) fn receive(&mut self, cell: &Cell, notes: &mut Notes) -> Result<(), OutOfMemory>
        requires { HasLeft self.old }
        ensures came { OnOk result (lab_in self.new notes.new ≡ cell_comes (lab_in self.old notes.old) cell.now) }
        ensures drawn { Draws 1 2 1 self.old self.new }
    {
        if cell.header.channel == DEFAULT_CHANNEL {
            self.take_cell(cell, notes)
        } else {
            notes.push(Record::Loss {
                mark: cell.mark,
                cause: Cause::Unbound,
            })
        }
    }
}
