//! The switch.

ghost use Rattle.std.specs.Prelude.{◌≡◌, ◌∷◌, ◌⊎◌, ◌≤◌, ◌<◌, ◌+◌, ◌^◌, None, true, length, slice_get, All, IfOk, OnErr, OnOk};
ghost use Rattle.net_types.specs.Number.{AreDrawn, GivenOut, HasNumbersLeft, next_instance, with_instance};
ghost use Rattle.crossbar_model.specs.Channels.{ArePorts};
ghost use Rattle.crossbar_model.specs.Crossbar.{output_of, popped, queue_of};
ghost use Rattle.std.specs.FinMap as map;
ghost use Rattle.fabric.specs.Fabric.{crossbar, free_slots as fabric_slots};
ghost use Rattle.fabric.specs.Following.{branch_behind};
ghost use Rattle.gsmp_wire.specs.Range.{Bits, IsInRange};
ghost use Rattle.world_model.specs.Switch.{control_port, free_slots, has_port, numbers_of, opened, switch_party};
ghost use Rattle.world_model.specs.Requests.{is_request};
ghost use Rattle.world_model.specs.Answers.{handled};
ghost use Rattle.world_model.specs.Conduct.{answers, cell_comes, forged, greeted, gsmp_cell, one_more_switched, frame_read, requested, reset, restarted, says, switched_cell, tick_comes, message_heard};
ghost use Rattle.adjacency_table.specs.Side.{fresh, is_estab};
ghost use Rattle.gsmp_switch.specs.State.{acted, refusal_of};

use crate::answer::{failure_answer, success_answer};
use crate::change::{change, clear_all};
use crate::exchange::Exchange;
use crate::ports::{begin, change_ports, opened_ports};
use crate::request::{asked_in, failure_of, is_request};
use aal5_frames::MAX_FRAME;
use atm_cells::Cell;
use fabric::{Fabric, Routed};
use frame_model::send_frame;
use gsmp_adjacency::{Adjacency, Answer, State};
use gsmp_wire::{Fault, MAX_MESSAGE, Message, decode, encode};
use link_model::{Cause, Layer, Notes, Record};
use net_types::{
    CONTROL_PORT, Channel, DEFAULT_CHANNEL, End, Greeting, Mark, NodeId, Numbers, OutOfMemory,
    Party, PortNo,
};
use refusal_names::gsmp_refusal;
use std::alloc::Global;
use std::marker::Model;
use world_model::{Failure, PortState};

/// What its type says of a name, for the proof of [`Switch::say_greeting`]: each octet is one of 8
/// bits. It does nothing.
fn name_fits(name: &[u8])
    ensures { All (Bits 8) name.now }
{}

/// An ATM switch under a controller (RFC 1987), the lower half of a node. It must be given up by
/// [`Switch::abandon`].
#[must_use]
#[derive(Debug)]
pub struct Switch {
    node: NodeId,
    /// Port 0 and the linked ports, ascending.
    ports: Vec<PortState>,
    exchange: Exchange,
    /// Where a frame of the GSMP channel is put together.
    frame: [u8; MAX_FRAME],
    adjacency: Adjacency,
    /// How many cells went from a port of a link to a port of a link.
    switched: u64,
}

impl Model for Switch {
    ghost use Rattle.std.specs.FinMap as map;
    ghost use Rattle.std.specs.Coded.{codes};
    ghost use Rattle.crossbar_model.specs.Channels.{end_cmp};
    ghost use Rattle.net_types.specs.contracts.channel.End as end_contract;
    ghost use Rattle.crossbar_model.specs.contracts.branch.Branch as branch_contract;
    ghost use Rattle.world_model.specs.Switch as model;
    ghost use Rattle.gsmp_switch.specs.State.{AreStatesOf};

    ghost Value = { model.Switch };

    ghost coded = { Prim.hlevel (codes, map.code {R = end_cmp} end_contract.the_row.coded branch_contract.the_row.coded) };

    ghost view = { λ s. record {
      node = s.node;
      ports = s.ports.items;
      crossbar = s.exchange.crossbar;
      reassembly = s.exchange.reassembly;
      adjacency = s.adjacency;
      switched = s.switched;
      cells = s.exchange.cells;
      vpis = s.exchange.vpis;
    } };

    ghost invariant = { λ s. AreStatesOf s.ports.items s.exchange.ports };
}

impl Switch {
    /// A new switch: no branch, no cell, and an adjacency that has heard nobody. The linked ports are
    /// `ports`; `cells` is the number of its slots, 1 to 16,384; `vpis` is how many VPIs labels may have
    /// on a link, from 0 on, 1 to 16.
    pub fn open(
        alloc: Global,
        node: NodeId,
        ports: &[PortNo],
        cells: usize,
        vpis: u8,
        numbers: &mut Numbers,
    ) -> Result<Switch, OutOfMemory>
        requires ports { ArePorts ports.now }
        requires cells { (1 ≤ cells) × (cells ≤ 16384) }
        requires vpis { (1 ≤ vpis) × (vpis ≤ 16) }
        requires numbers { HasNumbersLeft numbers.old }
        ensures switch { IfOk result (λ s. s ≡ opened node ports.now cells vpis (next_instance numbers.old)) }
        ensures numbers { numbers.new ≡ with_instance numbers.old }
    {
        let own = numbers.instance();
        let states = opened_ports(alloc, ports, own)?;
        let party = Party {
            name: [2, 0, 0, 0, 1, node.0],
            port: 0,
            instance: own,
        };
        Ok(Switch {
            node,
            ports: states,
            exchange: Exchange::open(alloc, ports, cells, vpis)?,
            frame: [0; MAX_FRAME],
            adjacency: Adjacency::start(party),
            switched: 0,
        })
    }

    /// Sends a message to the controller: whole, or not at all with the entry PoolFull.
    fn say(
        &mut self,
        message: &Message,
        numbers: &mut Numbers,
        notes: &mut Notes,
    ) -> Result<(), OutOfMemory>
        requires range { IsInRange message.now }
        requires numbers { numbers.old.controls + 1 < 2 ^ 64 }
        ensures acted { OnOk result (acted self.new notes.new numbers.new ≡ says (acted self.old notes.old numbers.old) message.now) }
        ensures drawn { AreDrawn numbers.old numbers.new }
    {
        let mark = numbers.control();
        let mut octets = [0; MAX_MESSAGE];
        let len = encode(message, &mut octets);
        let payload = &octets[..len];
        send_frame(
            &mut self.exchange,
            CONTROL_PORT,
            DEFAULT_CHANNEL,
            mark,
            payload,
            notes,
        )
    }

    /// Sends an adjacency message.
    fn say_greeting(
        &mut self,
        greeting: Greeting,
        numbers: &mut Numbers,
        notes: &mut Notes,
    ) -> Result<(), OutOfMemory>
        requires { numbers.old.controls + 1 < 2 ^ 64 }
        ensures acted { OnOk result (acted self.new notes.new numbers.new ≡ says (acted self.old notes.old numbers.old) (Message.Adjacency greeting)) }
        ensures drawn { AreDrawn numbers.old numbers.new }
    {
        name_fits(&greeting.sender.name);
        name_fits(&greeting.receiver.name);
        self.say(&Message::Adjacency(greeting), numbers, notes)
    }

    /// The adjacency begins anew with a new instance.
    fn reset(&mut self, numbers: &mut Numbers)
        requires { numbers.old.instances + 1 < 2 ^ 32 }
        ensures switch { self.new ≡ record self.old { adjacency = fresh State.SynSent (record self.old.adjacency.own { instance = next_instance numbers.old }) } }
        ensures numbers { numbers.new ≡ with_instance numbers.old }
    {
        self.adjacency.reset(numbers.instance());
    }

    /// Does what the adjacency answers.
    fn follow(
        &mut self,
        answer: Answer,
        numbers: &mut Numbers,
        notes: &mut Notes,
    ) -> Result<(), OutOfMemory>
        requires { HasNumbersLeft numbers.old }
        ensures acted { OnOk result (acted self.new notes.new numbers.new ≡ answers (acted self.old notes.old numbers.old) answer) }
        ensures drawn { AreDrawn numbers.old numbers.new }
    {
        match answer {
            Answer::Quiet => Ok(()),
            Answer::Send(greeting) => self.say_greeting(greeting, numbers, notes),
            Answer::Open { send, key } => {
                key.spend();
                match send {
                    Some(greeting) => self.say_greeting(greeting, numbers, notes),
                    None => Ok(()),
                }
            }
            Answer::Reset => {
                self.reset(numbers);
                Ok(())
            }
        }
    }

    /// Hears an adjacency message.
    fn greet(
        &mut self,
        greeting: &Greeting,
        numbers: &mut Numbers,
        notes: &mut Notes,
    ) -> Result<(), OutOfMemory>
        requires { HasNumbersLeft numbers.old }
        ensures acted { OnOk result (acted self.new notes.new numbers.new ≡ greeted (acted self.old notes.old numbers.old) greeting.now) }
        ensures drawn { AreDrawn numbers.old numbers.new }
    {
        let answer = self.adjacency.receive(greeting);
        self.follow(answer, numbers, notes)
    }

    /// A tick goes by.
    pub fn tick(&mut self, numbers: &mut Numbers, notes: &mut Notes) -> Result<(), OutOfMemory>
        requires { HasNumbersLeft numbers.old }
        ensures acted { OnOk result (acted self.new notes.new numbers.new ≡ tick_comes (acted self.old notes.old numbers.old)) }
        ensures drawn { AreDrawn numbers.old numbers.new }
    {
        let answer = self.adjacency.tick();
        self.follow(answer, numbers, notes)
    }

    /// Handles a request: does what it asks, or refuses it by the first failure that applies, for which
    /// no memory is wanting. The answer isn't sent.
    pub fn handle(&mut self, request: &Message, notes: &mut Notes) -> Result<Message, OutOfMemory>
        requires request { is_request request.now ≡ true }
        requires range { IsInRange request.now }
        ensures switch { OnOk result (self.new ≡ (handled self.old notes.old request.now).switch) }
        ensures notes { OnOk result (notes.new ≡ (handled self.old notes.old request.now).notes) }
        ensures answer { IfOk result (λ m. m ≡ (handled self.old notes.old request.now).answer) }
        ensures range { IfOk result IsInRange }
        ensures memory { OnErr result (refusal_of self.old request.now ≡ None) }
    {
        let ports = self.ports.as_slice();
        let Some(asked) = asked_in(request) else {
            return Ok(failure_answer(Failure::NoPort, request));
        };
        if let Some(failure) = failure_of(ports, &self.exchange, &asked) {
            return Ok(failure_answer(failure, request));
        }
        change(&mut self.exchange, &asked.request, notes)?;
        change_ports(&mut self.ports, &asked.request);
        Ok(success_answer(&self.ports, &self.exchange, &asked.request, request))
    }

    /// Takes a request, or another message that isn't the adjacency's.
    fn take_request(
        &mut self,
        message: &Message,
        numbers: &mut Numbers,
        notes: &mut Notes,
    ) -> Result<(), OutOfMemory>
        requires range { IsInRange message.now }
        requires numbers { HasNumbersLeft numbers.old }
        ensures acted { OnOk result (acted self.new notes.new numbers.new ≡ requested (acted self.old notes.old numbers.old) message.now) }
        ensures drawn { AreDrawn numbers.old numbers.new }
    {
        if is_request(message) && self.is_estab() {
            let answer = self.handle(message, notes)?;
            self.say(&answer, numbers, notes)
        } else {
            Ok(())
        }
    }

    /// Whether the controller and the switch know each other.
    fn is_estab(&self) -> bool
        ensures { result ≡ is_estab self.now.adjacency.state }
    {
        match self.adjacency.state() {
            State::Clearing => false,
            State::SynSent => false,
            State::SynRcvd => false,
            State::Estab => true,
        }
    }

    /// Takes a message.
    fn tell(
        &mut self,
        message: &Message,
        numbers: &mut Numbers,
        notes: &mut Notes,
    ) -> Result<(), OutOfMemory>
        requires range { IsInRange message.now }
        requires numbers { HasNumbersLeft numbers.old }
        ensures acted { OnOk result (acted self.new notes.new numbers.new ≡ message_heard (acted self.old notes.old numbers.old) message.now) }
        ensures drawn { AreDrawn numbers.old numbers.new }
    {
        match message {
            Message::Adjacency(greeting) => self.greet(greeting, numbers, notes),
            Message::Branch { .. } => self.take_request(message, numbers, notes),
            Message::Move { .. } => self.take_request(message, numbers, notes),
            Message::Port { .. } => self.take_request(message, numbers, notes),
            Message::AllPorts { .. } => self.take_request(message, numbers, notes),
        }
    }

    /// Takes the message that a frame of the GSMP channel holds, or notes why it holds none.
    fn read(
        &mut self,
        message: Result<Message, Fault>,
        numbers: &mut Numbers,
        notes: &mut Notes,
    ) -> Result<(), OutOfMemory>
        requires range { IfOk message IsInRange }
        requires numbers { HasNumbersLeft numbers.old }
        ensures acted { OnOk result (acted self.new notes.new numbers.new ≡ frame_read (acted self.old notes.old numbers.old) message) }
        ensures drawn { AreDrawn numbers.old numbers.new }
    {
        match message {
            Ok(message) => self.tell(&message, numbers, notes),
            Err(fault) => notes.push(Record::Bad {
                node: self.node,
                layer: Layer::Gsmp,
                name: gsmp_refusal(fault),
            }),
        }
    }

    /// Takes a cell of the GSMP channel.
    fn take_cell(
        &mut self,
        cell: &Cell,
        numbers: &mut Numbers,
        notes: &mut Notes,
    ) -> Result<(), OutOfMemory>
        requires { HasNumbersLeft numbers.old }
        ensures acted { OnOk result (acted self.new notes.new numbers.new ≡ gsmp_cell (acted self.old notes.old numbers.old) cell.now) }
        ensures drawn { AreDrawn numbers.old numbers.new }
    {
        let Some(len) = self.exchange.receive(cell, notes, &mut self.frame)? else {
            return Ok(());
        };
        let message = decode(&self.frame[..len]);
        self.read(message, numbers, notes)
    }

    /// Takes a cell of another channel: to where its branch leads.
    fn switch_cell(
        &mut self,
        port: PortNo,
        cell: &Cell,
        notes: &mut Notes,
    ) -> Result<(), OutOfMemory>
        ensures { (numbers : GivenOut) → OnOk result (acted self.new notes.new numbers ≡ switched_cell (acted self.old notes.old numbers) port cell.now) }
    {
        let cause = match self.exchange.switch_cell(port, cell) {
            Routed::Out(output) => {
                if port != CONTROL_PORT && output.port != CONTROL_PORT {
                    self.switched = self.switched.saturating_add(1);
                }
                return Ok(());
            }
            Routed::Unconnected => Cause::Unconnected,
            Routed::PoolFull => Cause::PoolFull,
        };
        notes.push(Record::Loss {
            mark: cell.mark,
            cause,
        })
    }

    /// Takes a cell that comes on a port.
    pub fn receive(
        &mut self,
        port: PortNo,
        cell: &Cell,
        numbers: &mut Numbers,
        notes: &mut Notes,
    ) -> Result<(), OutOfMemory>
        requires { HasNumbersLeft numbers.old }
        ensures acted { OnOk result (acted self.new notes.new numbers.new ≡ cell_comes (acted self.old notes.old numbers.old) port cell.now) }
        ensures drawn { AreDrawn numbers.old numbers.new }
    {
        if port == CONTROL_PORT && cell.header.channel == DEFAULT_CHANNEL {
            self.take_cell(cell, numbers, notes)
        } else {
            self.switch_cell(port, cell, notes)
        }
    }

    /// Starts anew: without branches, and with nothing taken of a frame. The cells that wait at the
    /// ports stay.
    pub fn restart(&mut self, numbers: &mut Numbers, notes: &mut Notes) -> Result<(), OutOfMemory>
        requires { HasNumbersLeft numbers.old }
        ensures acted { OnOk result (acted self.new notes.new numbers.new ≡ restarted (acted self.old notes.old numbers.old)) }
        ensures drawn { AreDrawn numbers.old numbers.new }
    {
        let own = numbers.instance();
        clear_all(&mut self.exchange, notes)?;
        self.exchange.cut(notes)?;
        self.adjacency.reset(own);
        begin(&mut self.ports, own);
        Ok(())
    }

    /// Puts the cells of a frame of 1 to 1528 octets at the end of a port's queue: whole, or not at all
    /// with the entry PoolFull. The port is 0 or one of the linked ports.
    pub fn forge(
        &mut self,
        port: PortNo,
        channel: Channel,
        payload: &[u8],
        mark: Mark,
        notes: &mut Notes,
    ) -> Result<(), OutOfMemory>
        requires port { has_port self.old.ports port ≡ true }
        requires channel { channel.vpi ≤ 255 }
        requires payload { (1 ≤ length payload.now) × (length payload.now ≤ 1528) }
        ensures { (numbers : GivenOut) → OnOk result (acted self.new notes.new numbers ≡ forged (acted self.old notes.old numbers) port channel mark payload.now) }
    {
        send_frame(&mut self.exchange, port, channel, mark, payload, notes)
    }

    /// Takes the first cell that waits at a port, 0 to 8. None exactly where none waits there.
    pub fn pop(&mut self, port: PortNo) -> Option<Cell>
        requires { port.0 ≤ 8 }
        ensures first { result ≡ slice_get (queue_of self.old.crossbar port) 0 }
        ensures popped { self.new ≡ record self.old { crossbar = popped self.old.crossbar port } }
    {
        self.exchange.pop(port)
    }

    /// The cell at an index of the queue of a port, 0 to 8, counted from the front from 0 on. None
    /// exactly where no more cells than that wait there. It is found from the nearer end of the queue.
    pub fn cell(&self, port: PortNo, index: usize) -> Option<Cell>
        requires { port.0 ≤ 8 }
        ensures { result ≡ slice_get (queue_of self.now.crossbar port) index }
    {
        self.exchange.cell(port, index)
    }

    /// How many cells wait at a port, 0 to 8.
    pub fn queued(&self, port: PortNo) -> usize
        requires { port.0 ≤ 8 }
        ensures { result ≡ length (queue_of self.now.crossbar port) }
    {
        self.exchange.queued(port)
    }

    /// How many slots are free.
    pub fn free(&self) -> usize
        ensures { result ≡ free_slots self.now }
    {
        self.exchange.free()
    }

    /// How many slots it has.
    pub fn slots(&self) -> usize
        ensures { result ≡ self.now.cells }
    {
        self.exchange.slots()
    }

    /// The state of the adjacency with the controller.
    pub fn state(&self) -> State
        ensures { result ≡ self.now.adjacency.state }
    {
        self.adjacency.state()
    }

    /// The first branch whose input stands behind another, in the order of port, VPI and VCI, or the
    /// first of all: the input, and where its cells go. None exactly where there is none.
    pub fn branch_at(&self, after: Option<End>) -> Option<(End, End)>
        ensures { result ≡ branch_behind self.now.crossbar.branches after }
    {
        self.exchange.branch_at(after)
    }

    /// What holds of every switch: it has no more branches than channels that any switch connects.
    pub fn branches_are_few(&self)
        ensures { length (map.entries self.now.crossbar.branches) ≤ 254208 }
    {
        self.exchange.branches_are_few();
    }

    /// Where the cells of an input go. None exactly where it has no branch.
    pub fn branch(&self, input: End) -> Option<End>
        ensures { result ≡ output_of self.now.crossbar.branches input }
    {
        self.exchange.branch(input)
    }

    /// How many cells went from a port of a link to a port of a link since the opening; once at its
    /// type's end it stays there.
    pub fn switched(&self) -> u64
        ensures { result ≡ self.now.switched }
    {
        self.switched
    }

    /// The fabric that the switch holds.
    pub fn fabric(&self) -> &Fabric
        ensures crossbar { crossbar result.now ≡ self.now.crossbar }
        ensures free { fabric_slots result.now ≡ free_slots self.now }
        ensures ports { numbers_of self.now.ports ≡ control_port ∷ result.now.ports }
        ensures vpis { result.now.vpis ≡ self.now.vpis }
    {
        self.exchange.fabric()
    }

    /// Gives up all cells.
    pub fn abandon(self) {
        let Switch {
            node: _,
            ports: _,
            exchange,
            frame: _,
            adjacency: _,
            switched: _,
        } = self;
        exchange.abandon();
    }
}
