//! The console and its switch, with what the console was told and answered: what it sends and asks.

ghost use Rattle.std.specs.Prelude.{◌≡◌, ◌+◌, ◌<◌, ◌≤◌, ◌^◌, [], slice_get, true, OnOk, IfOk, All};
ghost use Rattle.adjacency_table.specs.Side.{fresh, is_estab, ticked};
ghost use Rattle.branch_desk.specs.Requests.{has_function};
ghost use Rattle.console_model.specs.Asking.{asks, asks_next, meets, says};
ghost use Rattle.console_model.specs.Hearing.{follows};
ghost use Rattle.console_model.specs.Lab.{nothing_noted, opened, ports_to};
ghost use Rattle.crossbar_model.specs.Channels.{ArePorts};
ghost use Rattle.console_model.specs.Steps.{sends_first};
ghost use Rattle.gsmp_console.specs.Bench.{Draws, HasLeft, lab_in, reset_in};
ghost use Rattle.gsmp_wire.specs.Range.{Bits, IsInRange};
ghost use Rattle.port_model.specs.Desk.{last_transaction};

use crate::console::{CELLS, Console};
use console_model::Reply;
use frame_model::send_frame;
use gsmp_adjacency::Answer as AdjacencyAnswer;
use gsmp_switch::Switch;
use gsmp_wire::{MAX_MESSAGE, Message, Request, encode};
use link_model::Notes;
use net_types::{DEFAULT_CHANNEL, Greeting, LINK_PORTS, NodeId, Numbers, OutOfMemory, PortNo};
use std::alloc::Global;
use std::marker::Model;

/// The ports of links from 1 on.
fn ports_to(ports: u8) -> &'static [PortNo]
    requires { ports ≤ 8 }
    ensures these { result.now ≡ ports_to ports }
    ensures are_ports { ArePorts result.now }
{
    &LINK_PORTS[..ports as usize]
}

/// What its type says of a name, for the proof of [`Bench::greet`]: each octet is one of 8 bits. It does
/// nothing.
fn name_fits(name: &[u8])
    ensures { All (Bits 8) name.now }
{}

/// The console and its switch. It must be given up by [`Bench::abandon`].
#[must_use]
#[derive(Debug)]
pub(crate) struct Bench {
    pub(crate) commands: Vec<Request>,
    pub(crate) answers: Vec<Reply>,
    pub(crate) console: Console,
    pub(crate) switch: Switch,
    pub(crate) numbers: Numbers,
    pub(crate) events: u32,
}

impl Model for Bench {
    ghost use Rattle.std.specs.FinMap as map;
    ghost use Rattle.std.specs.Coded.{codes};
    ghost use Rattle.crossbar_model.specs.Channels.{end_cmp};
    ghost use Rattle.net_types.specs.contracts.channel.End as end_contract;
    ghost use Rattle.crossbar_model.specs.contracts.branch.Branch as branch_contract;
    ghost use Rattle.std.specs.Prelude.{◌≡◌, true, All};
    ghost use Rattle.branch_desk.specs.Requests.{has_function};
    ghost use Rattle.gsmp_console.specs.Bench.{Held};

    ghost Value = { Held };

    ghost coded = { Prim.hlevel (codes, map.code {R = end_cmp} end_contract.the_row.coded branch_contract.the_row.coded) };

    ghost view = { λ b. record {
      commands = b.commands.items;
      answers = b.answers.items;
      console = b.console;
      switch = b.switch;
      numbers = b.numbers;
      events = b.events;
    } };

    ghost invariant = { λ b. All (λ command. has_function command ≡ true) b.commands.items };
}

impl Bench {
    /// A console and a switch with port 0 and ports 1 to `ports`, 1 to 8: no command, no branch, no cell.
    pub(crate) fn open(alloc: Global, ports: u8) -> Result<Bench, OutOfMemory>
        requires { (1 ≤ ports) × (ports ≤ 8) }
        ensures { IfOk result (λ b. lab_in b nothing_noted ≡ opened ports) }
    {
        let mut numbers = Numbers::new();
        let own = numbers.instance();
        let console = Console::open(alloc, own)?;
        let linked = ports_to(ports);
        match Switch::open(alloc, NodeId(1), linked, CELLS, 1, &mut numbers) {
            Ok(switch) => Ok(Bench {
                commands: Vec::new(alloc),
                answers: Vec::new(alloc),
                console,
                switch,
                numbers,
                events: 0,
            }),
            Err(error) => {
                console.abandon();
                Err(error)
            }
        }
    }

    /// Says a message of GSMP to the switch.
    fn say(&mut self, message: &Message, notes: &mut Notes) -> Result<(), OutOfMemory>
        requires range { IsInRange message.now }
        requires numbers { self.old.numbers.controls + 1 < 2 ^ 64 }
        ensures said { OnOk result (lab_in self.new notes.new ≡ says (lab_in self.old notes.old) message.now) }
        ensures drawn { Draws 0 1 0 self.old self.new }
    {
        let mark = self.numbers.control();
        let mut octets = [0; MAX_MESSAGE];
        let len = encode(message, &mut octets);
        send_frame(
            &mut self.console,
            (),
            DEFAULT_CHANNEL,
            mark,
            &octets[..len],
            notes,
        )
    }

    /// Says a message of the adjacency.
    fn greet(&mut self, greeting: Greeting, notes: &mut Notes) -> Result<(), OutOfMemory>
        requires { self.old.numbers.controls + 1 < 2 ^ 64 }
        ensures said { OnOk result (lab_in self.new notes.new ≡ says (lab_in self.old notes.old) (Message.Adjacency greeting)) }
        ensures drawn { Draws 0 1 0 self.old self.new }
    {
        name_fits(&greeting.sender.name);
        name_fits(&greeting.receiver.name);
        self.say(&Message::Adjacency(greeting), notes)
    }

    /// Sends the request that stands, if one does, for the first time or again.
    pub(crate) fn send_standing(&mut self, notes: &mut Notes) -> Result<(), OutOfMemory>
        requires { self.old.numbers.controls + 1 < 2 ^ 64 }
        ensures sent { OnOk result (lab_in self.new notes.new ≡ sends_first (lab_in self.old notes.old) (slice_get self.old.console.desk.standing 0)) }
        ensures drawn { Draws 0 1 0 self.old self.new }
    {
        match self.console.standing() {
            Some(message) => self.say(&message, notes),
            None => Ok(()),
        }
    }

    /// Asks a request, where nothing stands. Its number isn't the last.
    fn ask(&mut self, request: Request, notes: &mut Notes) -> Result<(), OutOfMemory>
        requires empty { self.old.console.desk.standing ≡ [] }
        requires next { self.old.console.desk.next < last_transaction }
        requires function { has_function request ≡ true }
        requires numbers { self.old.numbers.controls + 1 < 2 ^ 64 }
        ensures asked { OnOk result (lab_in self.new notes.new ≡ asks (lab_in self.old notes.old) request) }
        ensures drawn { Draws 0 1 1 self.old self.new }
    {
        self.console.ask(request);
        self.send_standing(notes)
    }

    /// On entering Estab: what stands is withdrawn, and all ports are asked for.
    fn meet(&mut self, notes: &mut Notes) -> Result<(), OutOfMemory>
        requires next { self.old.console.desk.next < last_transaction }
        requires numbers { self.old.numbers.controls + 1 < 2 ^ 64 }
        ensures met { OnOk result (lab_in self.new notes.new ≡ meets (lab_in self.old notes.old)) }
        ensures drawn { Draws 0 1 1 self.old self.new }
    {
        self.console.withdraw();
        self.ask(Request::AllPorts, notes)
    }

    /// Asks the first command that isn't answered, where the two know each other and nothing stands.
    pub(crate) fn ask_next(&mut self, notes: &mut Notes) -> Result<(), OutOfMemory>
        requires next { self.old.console.desk.next < last_transaction }
        requires numbers { self.old.numbers.controls + 1 < 2 ^ 64 }
        ensures asked { OnOk result (lab_in self.new notes.new ≡ asks_next (lab_in self.old notes.old)) }
        ensures drawn { Draws 0 1 1 self.old self.new }
    {
        if !self.console.may_ask() {
            return Ok(());
        }
        match self.commands.get(self.answers.len()) {
            Some(command) => {
                let command = *command;
                self.ask(command, notes)
            }
            None => Ok(()),
        }
    }

    /// The console's adjacency begins anew with a new instance.
    pub(crate) fn reset(&mut self)
        requires { self.old.numbers.instances + 1 < 2 ^ 32 }
        ensures reset { self.new ≡ reset_in self.old }
        ensures drawn { Draws 1 0 0 self.old self.new }
    {
        let own = self.numbers.instance();
        self.console.reset(own);
    }

    /// Does what the adjacency answers.
    pub(crate) fn follow(
        &mut self,
        answer: AdjacencyAnswer,
        notes: &mut Notes,
    ) -> Result<(), OutOfMemory>
        requires { HasLeft self.old }
        ensures followed { OnOk result (lab_in self.new notes.new ≡ follows (lab_in self.old notes.old) answer) }
        ensures drawn { Draws 1 2 1 self.old self.new }
    {
        match answer {
            AdjacencyAnswer::Quiet => Ok(()),
            AdjacencyAnswer::Send(greeting) => self.greet(greeting, notes),
            AdjacencyAnswer::Open { send, key } => {
                key.spend();
                if let Some(greeting) = send {
                    self.greet(greeting, notes)?;
                }
                self.meet(notes)
            }
            AdjacencyAnswer::Reset => {
                self.reset();
                Ok(())
            }
        }
    }

    /// Gives up all cells and requests.
    pub(crate) fn abandon(self) {
        let Bench {
            commands: _,
            answers: _,
            console,
            switch,
            numbers: _,
            events: _,
        } = self;
        console.abandon();
        switch.abandon();
    }
}
