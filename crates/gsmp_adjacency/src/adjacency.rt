//! One side of a GSMP adjacency.

ghost use Rattle.std.specs.Prelude.{◌≡◌, false};
ghost use Rattle.adjacency_table.specs.declared.message.Answer.TheVariants.{Reset};
ghost use Rattle.gsmp_adjacency.specs.Greeting.{greeting_of, gsmp_answer};

use crate::established::Established;
use adjacency_table::{self as table, Heard, Said, State};
use net_types::{Greeting, Instance, Party};
use std::marker::Model;

/// How a party that isn't known is written.
const NOBODY: Party = Party {
    name: [0; 6],
    port: 0,
    instance: Instance(0),
};

/// The action of a GSMP adjacency protocol state machine (an answer): what a side does at a
/// greeting or a tick (RFC 1987, Adjacency Protocol).
pub type Answer = table::Answer<Greeting, Established>;

/// The GSMP adjacency protocol state machine: one side of an adjacency (RFC 1987, Adjacency
/// Protocol).
#[derive(Debug, Drop)]
pub struct Adjacency {
    side: table::Adjacency<Party>,
}

impl Model for Adjacency {
    ghost use Rattle.adjacency_table.specs.Side.{Side};
    ghost use Rattle.net_types.specs.declared.adjacency.Party.{Party};

    ghost Value = { Side Party };

    ghost view = { λ a. a.side };
}

impl Adjacency {
    ghost use Rattle.adjacency_table.specs.Side.{IsSide, fresh, is_entry, is_open, ticked};
    ghost use Rattle.gsmp_adjacency.specs.Greeting.{gsmp_answer, gsmp_received};

    /// The adjacency of this party, in SynSent.
    pub fn start(own: Party) -> Adjacency
        ensures { result ≡ fresh State.SynSent own }
    {
        Adjacency {
            side: table::Adjacency::start(State::SynSent, own),
        }
    }

    /// A message comes. The answer opens exactly on entering Estab, and at a reset nothing changes.
    pub fn receive(&mut self, greeting: &Greeting) -> Answer
        ensures side { self.new ≡ (gsmp_received self.old greeting.now).side }
        ensures answer { result ≡ gsmp_answer (gsmp_received self.old greeting.now).answer }
        ensures opens { is_open result ≡ is_entry self.old.state self.new.state }
        ensures reset { result ≡ Reset → self.new ≡ self.old }
    {
        let heard = Heard {
            kind: greeting.kind,
            sender: greeting.sender,
            receiver: greeting.receiver,
        };
        answer_with(self.side.receive(&heard))
    }

    /// A tick goes by. In Estab the fourth one in a row at which nothing was heard is a reset.
    pub fn tick(&mut self) -> Answer
        ensures side { self.new ≡ (ticked self.old).side }
        ensures answer { result ≡ gsmp_answer (ticked self.old).answer }
        ensures opens { is_open result ≡ false }
        ensures reset { result ≡ Reset → self.new ≡ self.old }
    {
        answer_with(self.side.tick())
    }

    /// Begins anew in SynSent with this own instance, and the own name and port as before.
    pub fn reset(&mut self, own: Instance)
        ensures { self.new ≡ fresh State.SynSent (record self.old.own { instance = own }) }
    {
        let own = Party {
            instance: own,
            ..self.side.own()
        };
        self.side = table::Adjacency::start(State::SynSent, own);
    }

    /// The peer was heard in another way: the silence count begins anew.
    pub fn heard(&mut self)
        ensures { self.new ≡ record self.old { silence = 0 } }
    {
        self.side.heard();
    }

    /// The peer, none where nothing is stored.
    pub fn peer(&self) -> Option<Party>
        ensures stored { result ≡ self.now.stored }
        ensures sound { IsSide self.now }
    {
        self.side.peer()
    }

    /// The state.
    pub fn state(&self) -> State
        ensures { result ≡ self.now.state }
    {
        self.side.state()
    }
}

/// The table's answer in GSMP's messages.
fn answer_with(answer: table::Answer<Said<Party>, Party>) -> Answer
    ensures { result ≡ gsmp_answer answer }
{
    match answer {
        table::Answer::Quiet => Answer::Quiet,
        table::Answer::Send(said) => Answer::Send(greeting_with(said)),
        table::Answer::Open { send, key } => Answer::Open {
            send: send.map(greeting_with),
            key: Established::new(key),
        },
        table::Answer::Reset => Answer::Reset,
    }
}

/// A message as it is written.
fn greeting_with(said: Said<Party>) -> Greeting
    ensures { result ≡ greeting_of said }
{
    Greeting {
        kind: said.kind,
        sender: said.sender,
        receiver: said.receiver.unwrap_or(NOBODY),
    }
}
