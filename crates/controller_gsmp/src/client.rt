//! The client.

ghost use Rattle.std.specs.Prelude.{◌≡◌, ◌≤◌, ◌+◌, ◌&&◌, [], drop, false, length, map, not, slice_get, true, All, IfOk};
ghost use Rattle.adjacency_table.specs.Side.{fresh, is_entry, is_estab, is_open, ticked};
ghost use Rattle.cell_pool.specs.Region.{size};
ghost use Rattle.controller_link.specs.Cells.{IsRange, free_slots, opened};
ghost use Rattle.crossbar_model.specs.Channels.{ArePorts};
ghost use Rattle.world_model.specs.port_model.DeskAnswers.{after_answer, answered};
ghost use Rattle.world_model.specs.port_model.Desk.{empty_desk, emptied};
ghost use Rattle.gsmp_adjacency.specs.Greeting.{gsmp_answer, gsmp_received};
ghost use Rattle.controller_requests.specs.Answers.{told};

use adjacency_table::State;
use cell_pool::Pool;
use controller_link::ControlLink;
use controller_requests::{Answer, RequestBook};
use gsmp_adjacency::{Adjacency, Answer as AdjacencyAnswer};
use gsmp_wire::Message;
use net_types::{Greeting, Instance, OutOfMemory, Party};
use std::alloc::Global;
use std::marker::Model;
use world_model::PortRange;

/// A GSMP client (RFC 1987): a controller's adjacency with its switch, its outstanding requests and
/// its end of the control link. It must be given up by [`Client::abandon`].
#[must_use]
#[derive(Debug)]
pub struct Client {
    pub(crate) adjacency: Adjacency,
    pub(crate) requests: RequestBook,
    pub(crate) has_met: bool,
    pub(crate) control: ControlLink,
}

impl Model for Client {
    ghost use Rattle.controller_gsmp.specs.Client as views;

    ghost Value = { views.Client };

    ghost view = { λ c. record { adjacency = c.adjacency; desk = c.requests; has_met = c.has_met; control = c.control } };
}

impl Client {
    /// A client in SynSent that is this party, with these linked ports, ascending, and so many slots.
    pub fn open(
        alloc: Global,
        own: Party,
        ports: &[PortRange],
        cells: usize,
    ) -> Result<Client, OutOfMemory>
        requires ports { ArePorts (map (λ r. r.port) ports.now) }
        requires ranges { All IsRange ports.now }
        ensures { IfOk result (λ client. client ≡ record { adjacency = fresh State.SynSent own; desk = empty_desk; has_met = false; control = opened ports.now cells }) }
    {
        let requests = RequestBook::open(alloc)?;
        match ControlLink::open(alloc, ports, cells) {
            Ok(control) => Ok(Client {
                adjacency: Adjacency::start(own),
                requests,
                has_met: false,
                control,
            }),
            Err(error) => {
                requests.abandon();
                Err(error)
            }
        }
    }

    /// The state of its adjacency with its switch.
    pub fn state(&self) -> State
        ensures { result ≡ self.now.adjacency.state }
    {
        self.adjacency.state()
    }

    /// Whether the client and its switch know each other.
    pub fn is_estab(&self) -> bool
        ensures { result ≡ is_estab self.now.adjacency.state }
    {
        match self.adjacency.state() {
            State::Clearing => false,
            State::SynSent => false,
            State::SynRcvd => false,
            State::Estab => true,
        }
    }

    /// Whether the switch is met.
    pub fn has_met(&self) -> bool
        ensures { result ≡ self.now.has_met }
    {
        self.has_met
    }

    /// The switch is met.
    pub fn end_meeting(&mut self)
        ensures { self.new ≡ record self.old { has_met = true } }
    {
        self.has_met = true;
    }

    /// A message of the adjacency comes.
    pub fn hear(&mut self, greeting: &Greeting) -> AdjacencyAnswer
        ensures side { self.new ≡ record self.old { adjacency = (gsmp_received self.old.adjacency greeting.now).side } }
        ensures answer { result ≡ gsmp_answer (gsmp_received self.old.adjacency greeting.now).answer }
        ensures opens { is_open result ≡ is_entry self.old.adjacency.state self.new.adjacency.state }
    {
        self.adjacency.receive(greeting)
    }

    /// A tick goes by for the adjacency.
    pub fn tick(&mut self) -> AdjacencyAnswer
        ensures side { self.new ≡ record self.old { adjacency = (ticked self.old.adjacency).side } }
        ensures answer { result ≡ gsmp_answer (ticked self.old.adjacency).answer }
        ensures opens { is_open result ≡ false }
    {
        self.adjacency.tick()
    }

    /// The adjacency begins anew under this instance, nothing stands, and the switch isn't met.
    pub fn reset(&mut self, own: Instance)
        ensures { self.new ≡ record self.old { adjacency = fresh State.SynSent (record self.old.adjacency.own { instance = own }); desk = emptied self.old.desk; has_met = false } }
    {
        self.adjacency.reset(own);
        self.requests.empty();
        self.has_met = false;
    }

    /// On entering Estab: transaction numbers begin at 1. Nothing may stand.
    pub fn begin(&mut self)
        requires { self.old.desk.standing ≡ [] }
        ensures { self.new ≡ record self.old { desk = empty_desk } }
    {
        self.requests.begin();
    }

    /// Takes a message of the switch that isn't of the adjacency. What is done must be redeemed.
    pub fn take_answer(&mut self, message: &Message) -> Answer
        ensures answer { result ≡ told (answered self.old.desk message.now) }
        ensures after { self.new ≡ record self.old { desk = after_answer self.old.desk (answered self.old.desk message.now) } }
    {
        self.requests.answer(message)
    }

    /// The requests that stand.
    pub fn requests(&self) -> &RequestBook
        ensures { result.now ≡ self.now.desk }
    {
        &self.requests
    }

    /// The region of the slots.
    pub fn region(&self) -> &Pool
        ensures free { length result.now.free ≡ free_slots self.now.control }
        ensures cells { size result.now ≡ self.now.control.cells }
    {
        self.control.region()
    }

    /// Gives up all cells and requests.
    pub fn abandon(self) {
        let Client {
            adjacency: _,
            requests,
            has_met: _,
            control,
        } = self;
        requests.abandon();
        control.abandon();
    }
}
