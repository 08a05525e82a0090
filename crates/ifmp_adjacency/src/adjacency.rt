//! One side of an IFMP adjacency.

ghost use Rattle.std.specs.Prelude.{◌≡◌, false};
ghost use Rattle.std.specs.Option.{option_map};
ghost use Rattle.adjacency_table.specs.declared.message.Answer.TheVariants.{Reset};
ghost use Rattle.ifmp_adjacency.specs.Hello.{hello_of, ifmp_answer};

use crate::established::Established;
use adjacency_table::{self as table, Heard, Said, State};
use net_types::{Addr, Hello, HelloKind, Instance, Peer};
use std::marker::Model;

/// The IFMP adjacency protocol state machine: one side of an adjacency (RFC 1953, IFMP Adjacency
/// Protocol).
#[derive(Debug, Drop)]
pub struct Adjacency {
    side: table::Adjacency<Peer>,
}

impl Model for Adjacency {
    ghost use Rattle.adjacency_table.specs.Side.{Side};
    ghost use Rattle.net_types.specs.declared.adjacency.Peer.{Peer};

    ghost Value = { Side Peer };

    ghost view = { λ a. a.side };
}

/// The action of an IFMP adjacency protocol state machine (an answer): what a side does at a hello
/// or a tick (RFC 1953, IFMP Adjacency Protocol).
pub type Answer = table::Answer<Hello, Established>;

impl Adjacency {
    ghost use Rattle.adjacency_table.specs.Side.{IsSide, fresh, is_entry, is_open, ticked};
    ghost use Rattle.ifmp_adjacency.specs.Hello.{ifmp_answer, ifmp_received};

    /// The adjacency of a router of this address, in Clearing.
    pub fn start(own: Instance, address: Addr) -> Adjacency
        ensures { result ≡ fresh State.Clearing (record { instance = own; address = address }) }
    {
        let own = Peer {
            instance: own,
            address,
        };
        Adjacency {
            side: table::Adjacency::start(State::Clearing, own),
        }
    }

    /// Its port is cleared: from Clearing to SynSent.
    pub fn cleared(&mut self)
        requires { self.old.state ≡ State.Clearing }
        ensures { self.new ≡ record self.old { state = State.SynSent } }
    {
        self.side.cleared();
    }

    /// A message comes in a packet from `source`; `next` is the sequence number that SYNACK and
    /// ACK carry. The answer opens exactly on entering Estab, and at a reset nothing changes.
    pub fn receive(&mut self, source: Addr, hello: &Hello, next: u32) -> Answer
        ensures side { self.new ≡ (ifmp_received self.old source hello.now).side }
        ensures answer { result ≡ ifmp_answer next (ifmp_received self.old source hello.now).answer }
        ensures opens { is_open result ≡ is_entry self.old.state self.new.state }
        ensures reset { result ≡ Reset → self.new ≡ self.old }
    {
        let heard = Heard {
            kind: hello.kind,
            sender: Peer {
                instance: hello.sender,
                address: source,
            },
            receiver: Peer {
                instance: hello.peer,
                address: hello.identity,
            },
        };
        answer_with(next, self.side.receive(&heard))
    }

    /// A tick goes by. In Estab the fourth one in a row at which nothing was heard is a reset.
    pub fn tick(&mut self, next: u32) -> Answer
        ensures side { self.new ≡ (ticked self.old).side }
        ensures answer { result ≡ ifmp_answer next (ticked self.old).answer }
        ensures opens { is_open result ≡ false }
        ensures reset { result ≡ Reset → self.new ≡ self.old }
    {
        answer_with(next, self.side.tick())
    }

    /// Begins anew in Clearing with this own instance.
    pub fn reset(&mut self, own: Instance)
        ensures { self.new ≡ fresh State.Clearing (record self.old.own { instance = own }) }
    {
        let own = Peer {
            instance: own,
            address: self.side.own().address,
        };
        self.side = table::Adjacency::start(State::Clearing, own);
    }

    /// The peer was heard in another way: the silence count begins anew.
    pub fn heard(&mut self)
        ensures { self.new ≡ record self.old { silence = 0 } }
    {
        self.side.heard();
    }

    /// The own instance and address.
    pub fn own(&self) -> Peer
        ensures { result ≡ self.now.own }
    {
        self.side.own()
    }

    /// The peer's instance and address, none where nothing is stored.
    pub fn peer(&self) -> Option<(Instance, Addr)>
        ensures stored { result ≡ option_map (λ peer. (peer.instance, peer.address)) self.now.stored }
        ensures sound { IsSide self.now }
    {
        let peer = self.side.peer()?;
        Some((peer.instance, peer.address))
    }

    /// The state.
    pub fn state(&self) -> State
        ensures { result ≡ self.now.state }
    {
        self.side.state()
    }
}

/// The table's answer in IFMP's messages.
fn answer_with(next: u32, answer: table::Answer<Said<Peer>, Peer>) -> Answer
    ensures { result ≡ ifmp_answer next answer }
{
    match answer {
        table::Answer::Quiet => Answer::Quiet,
        table::Answer::Send(said) => Answer::Send(hello_with(next, said)),
        table::Answer::Open { send, key } => Answer::Open {
            send: send.map(|said| hello_with(next, said)),
            key: Established::new(key.instance),
        },
        table::Answer::Reset => Answer::Reset,
    }
}

/// A message as it is written.
fn hello_with(next: u32, said: Said<Peer>) -> Hello
    ensures { result ≡ hello_of next said }
{
    let receiver = said.receiver.unwrap_or(Peer {
        instance: Instance(0),
        address: Addr(0),
    });
    Hello {
        kind: said.kind,
        sender: said.sender.instance,
        peer: receiver.instance,
        identity: receiver.address,
        next: match said.kind {
            HelloKind::Synack | HelloKind::Ack => next,
            HelloKind::Syn | HelloKind::Rstack => 0,
        },
    }
}
