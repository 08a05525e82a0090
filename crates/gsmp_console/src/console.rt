//! The console's part: its adjacency with the switch, the request that stands, and what its region of
//! slots holds.

ghost use Rattle.std.specs.Prelude.{◌≡◌, ◌≤◌, ◌<◌, ◌↔◌, [], drop, length, nat_lt, slice_get, true, IsTrue, IfOk, IfSome, OnOk};
ghost use Rattle.std.specs.Bool.{OnTrue, OnFalse};
ghost use Rattle.std.specs.Option.{option_map};
ghost use Rattle.adjacency_table.specs.Side.{fresh, is_estab, ticked};
ghost use Rattle.branch_desk.specs.Requests.{has_function};
ghost use Rattle.console_model.specs.Asking.{may_ask, with_cells};
ghost use Rattle.console_model.specs.Lab.{free_slots, opened_console, the_node};
ghost use Rattle.frame_model.specs.Reassembly.{cut, nothing_taken};
ghost use Rattle.gsmp_adjacency.specs.Greeting.{gsmp_answer, gsmp_received};
ghost use Rattle.gsmp_wire.specs.Fields.{decoded};
ghost use Rattle.gsmp_wire.specs.Range.{IsInRange};
ghost use Rattle.port_model.specs.Desk.{asked, emptied, last_transaction, message_at};
ghost use Rattle.port_model.specs.DeskAnswers.{after_answer, answered};
ghost use Rattle.reassembly.specs.Receipt.{received};
ghost use Rattle.controller_requests.specs.Answers.{told};
ghost use Rattle.world_model.specs.Opening.{controller_party};

use aal5_frames::MAX_FRAME;
use atm_cells::Cell;
use controller_link::{ControlLink, Taker};
use controller_requests::{Answer, RequestBook};
use frame_model::Queues;
use gsmp_adjacency::{Adjacency, Answer as AdjacencyAnswer, State};
use gsmp_wire::{Fault, Message, Request, decode};
use link_model::Notes;
use net_types::{Greeting, Instance, OutOfMemory, Party};
use std::alloc::Global;
use std::marker::Model;

/// How many cells the region of the console has room for, and that of its switch.
pub(crate) const CELLS: usize = 1024;

/// The console. It must be given up by [`Console::abandon`].
#[must_use]
#[derive(Debug)]
pub(crate) struct Console {
    adjacency: Adjacency,
    requests: RequestBook,
    control: ControlLink,
    /// Where a frame of the GSMP channel is put together.
    frame: [u8; MAX_FRAME],
}

impl Model for Console {
    ghost use Rattle.std.specs.Prelude.{◌≡◌, []};
    ghost use Rattle.console_model.specs.Lab as lab;

    ghost Value = { lab.Console };

    ghost view = { λ c. record {
      adjacency = c.adjacency;
      desk = c.requests;
      reassembly = c.control.reassembly;
      queue = c.control.queue;
      cells = c.control.cells;
    } };

    ghost invariant = { λ c. c.control.ports ≡ [] };
}

impl Console {
    /// A console of this instance, in SynSent.
    pub(crate) fn open(alloc: Global, own: Instance) -> Result<Console, OutOfMemory>
        ensures { IfOk result (λ c. c ≡ record opened_console { adjacency = fresh State.SynSent (controller_party the_node own) }) }
    {
        let party = Party {
            name: [2, 0, 0, 0, 0, 1],
            port: 0,
            instance: own,
        };
        let requests = RequestBook::open(alloc)?;
        match ControlLink::open(alloc, &[], CELLS) {
            Ok(control) => Ok(Console {
                adjacency: Adjacency::start(party),
                requests,
                control,
                frame: [0; MAX_FRAME],
            }),
            Err(error) => {
                requests.abandon();
                Err(error)
            }
        }
    }

    /// Whether the console and the switch know each other.
    pub(crate) fn is_estab(&self) -> bool
        ensures { result ≡ is_estab self.now.adjacency.state }
    {
        match self.adjacency.state() {
            State::Clearing => false,
            State::SynSent => false,
            State::SynRcvd => false,
            State::Estab => true,
        }
    }

    /// Whether they know each other and nothing stands.
    pub(crate) fn may_ask(&self) -> bool
        ensures may { result ≡ may_ask self.now }
        ensures empty { result ≡ true → self.now.desk.standing ≡ [] }
    {
        self.is_estab() && self.requests.standing() == 0
    }

    /// Asks a request, where nothing stands. Its number isn't the last.
    pub(crate) fn ask(&mut self, request: Request)
        requires empty { self.old.desk.standing ≡ [] }
        requires next { self.old.desk.next < last_transaction }
        requires function { has_function request ≡ true }
        ensures { self.new ≡ record self.old { desk = asked self.old.desk request } }
    {
        self.requests.ask(request);
    }

    /// The message of the request that stands, if one does. It is in range.
    pub(crate) fn standing(&self) -> Option<Message>
        ensures message { result ≡ option_map (message_at self.now.desk) (slice_get self.now.desk.standing 0) }
        ensures range { IfSome result IsInRange }
    {
        self.requests.message_at(0)
    }

    /// Withdraws what stands.
    pub(crate) fn withdraw(&mut self)
        ensures { self.new ≡ record self.old { desk = emptied self.old.desk } }
    {
        self.requests.empty();
    }

    /// A message of the adjacency comes.
    pub(crate) fn hear(&mut self, greeting: &Greeting) -> AdjacencyAnswer
        ensures side { self.new ≡ record self.old { adjacency = (gsmp_received self.old.adjacency greeting.now).side } }
        ensures answer { result ≡ gsmp_answer (gsmp_received self.old.adjacency greeting.now).answer }
    {
        self.adjacency.receive(greeting)
    }

    /// A tick goes by for the adjacency.
    pub(crate) fn tick(&mut self) -> AdjacencyAnswer
        ensures side { self.new ≡ record self.old { adjacency = (ticked self.old.adjacency).side } }
        ensures answer { result ≡ gsmp_answer (ticked self.old.adjacency).answer }
    {
        self.adjacency.tick()
    }

    /// The adjacency begins anew under this instance, and all else stays.
    pub(crate) fn reset(&mut self, own: Instance)
        ensures { self.new ≡ record self.old { adjacency = fresh State.SynSent (record self.old.adjacency.own { instance = own }) } }
    {
        self.adjacency.reset(own);
    }

    /// Takes a message of the switch that isn't of the adjacency. What is done must be redeemed.
    pub(crate) fn take_answer(&mut self, message: &Message) -> Answer
        ensures answer { result ≡ told (answered self.old.desk message.now) }
        ensures after { self.new ≡ record self.old { desk = after_answer self.old.desk (answered self.old.desk message.now) } }
    {
        self.requests.answer(message)
    }

    /// Takes a cell of the GSMP channel. Where it ends a frame that passes its test, the answer is what the
    /// frame holds.
    pub(crate) fn take_cell(
        &mut self,
        cell: &Cell,
        notes: &mut Notes,
    ) -> Result<Option<Result<Message, Fault>>, OutOfMemory>
        ensures rest { self.new ≡ record self.old { reassembly = self.new.reassembly; queue = self.new.queue; cells = self.new.cells } }
        ensures reassembly { OnOk result (self.new ≡ record self.old { reassembly = (received notes.old (nat_lt 0 (free_slots self.old)) self.old.reassembly cell.now).reassembly }) }
        ensures notes { OnOk result (notes.new ≡ (received notes.old (nat_lt 0 (free_slots self.old)) self.old.reassembly cell.now).notes) }
        ensures message { IfOk result (λ found. found ≡ option_map decoded (received notes.old (nat_lt 0 (free_slots self.old)) self.old.reassembly cell.now).payload) }
    {
        match self
            .control
            .receive(Taker::Gsmp, cell, notes, &mut self.frame)?
        {
            Some(len) => Ok(Some(decode(&self.frame[..len]))),
            None => Ok(None),
        }
    }

    /// Cuts the chain of the GSMP channel, and ends a skipping.
    pub(crate) fn cut(&mut self, notes: &mut Notes) -> Result<(), OutOfMemory>
        ensures chain { self.new ≡ record self.old { reassembly = nothing_taken } }
        ensures notes { OnOk result (notes.new ≡ cut notes.old self.old.reassembly) }
    {
        self.control.cut(Taker::Gsmp, notes)
    }

    /// Takes the first cell that waits for the switch; `None` exactly where none waits.
    pub(crate) fn pop(&mut self) -> Option<Cell>
        ensures first { result ≡ slice_get self.old.queue 0 }
        ensures popped { self.new ≡ record self.old { queue = drop 1 self.old.queue } }
    {
        self.control.pop()
    }

    /// Gives up all cells and requests.
    pub(crate) fn abandon(self) {
        let Console {
            adjacency: _,
            requests,
            control,
            frame: _,
        } = self;
        requests.abandon();
        control.abandon();
    }
}

impl Queues<()> for Console {
    ghost use Rattle.console_model.specs.Asking.{with_cells};
    ghost use Rattle.console_model.specs.Lab.{free_slots};

    ghost free = { free_slots };

    ghost with_cells = { λ c _ cells. with_cells c cells };

    ghost has_queue = { λ _ _. Unit {0} };

    fn send(&mut self, _queue: (), cells: &[Cell]) -> bool
        ensures all { IsTrue result ↔ (length cells.now ≤ free_slots self.old) }
        ensures sent { OnTrue result (self.new ≡ with_cells self.old cells.now) }
        ensures none { OnFalse result (self.new ≡ self.old) }
    {
        self.control.send((), cells)
    }
}
