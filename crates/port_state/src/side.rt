//! The adjacency of a port, and its session from its beginning to its end.

ghost use Rattle.std.specs.Prelude.{◌≡◌, ◌<◌, ◌+◌, ◌&&◌, false, max, nat_lt, nat_le, cond, is_some, IsTrue, IfSome, None, Some, OnOk};
ghost use Rattle.std.specs.Option.{option_map, option_map_or};
ghost use Rattle.adjacency_table.specs.Side.{fresh, ticked};
ghost use Rattle.adjacency_table.specs.Hello.{heard_from, ifmp_answer, ifmp_received, same_peer};
ghost use Rattle.port_model.specs.Adjacency.{first_session, is_good};
ghost use Rattle.port_model.specs.Redirection.{is_due, is_from_peer};
ghost use Rattle.port_model.specs.Saying.{is_spent, own_instance, peer_instance};
ghost use Rattle.port_session.specs.Session.{after_number};
ghost use Rattle.port_state.specs.Engine.{setup_of};
ghost use Rattle.port_state.specs.Parts.{IsOwn, changed_session, taken_number, with_side};

use crate::state::PortState;
use flow_classifier::Policy;
use ifmp_adjacency::{Adjacency, Answer, Established, State};
use net_types::{Addr, Hello, HelloKind, Instance, OutOfMemory, Peer};
use port_session::{LAST_NUMBER, Session};
use std::mem;

/// Whether two parties are one.
fn is_same(x: &Peer, y: &Peer) -> bool
    ensures { result ≡ same_peer x.now y.now }
{
    x.instance == y.instance && x.address == y.address
}

impl<P: Policy> PortState<P> {
    ghost use Rattle.std.specs.Prelude.{◌↔◌};

    /// Whether its adjacency is in Clearing.
    pub fn is_clearing(&self) -> bool
        ensures { IsTrue result ↔ (self.now.port.adjacency.state ≡ State.Clearing) }
    {
        self.adjacency.state() == State::Clearing
    }

    /// The state of its adjacency.
    pub fn state(&self) -> State
        ensures { result ≡ self.now.port.adjacency.state }
    {
        self.adjacency.state()
    }

    /// Its own instance.
    pub fn own(&self) -> Instance
        ensures { result ≡ own_instance self.now.port.adjacency }
    {
        self.adjacency.own().instance
    }

    /// The instance of the stored peer, 0 where none is stored.
    pub fn peer(&self) -> Instance
        ensures { result ≡ peer_instance self.now.port.adjacency }
    {
        match self.adjacency.peer() {
            Some((instance, _)) => instance,
            None => Instance(0),
        }
    }

    /// The address of the stored peer. None exactly where none is stored.
    pub fn peer_address(&self) -> Option<Addr>
        ensures { result ≡ option_map (λ peer. peer.address) self.now.port.adjacency.stored }
    {
        match self.adjacency.peer() {
            Some((_, address)) => Some(address),
            None => None,
        }
    }

    /// Whether this party is the stored peer.
    fn is_stored(&self, party: &Peer) -> bool
        ensures { result ≡ option_map_or (same_peer party.now) self.now.port.adjacency.stored false }
    {
        match self.adjacency.peer() {
            Some((instance, address)) => is_same(party, &Peer { instance, address }),
            None => false,
        }
    }

    /// Whether a message is from the stored peer, and for the own instance.
    pub fn is_from_peer(&self, source: Addr, sender: Instance, peer: Instance) -> bool
        ensures { result ≡ is_from_peer self.now.port.adjacency source sender peer }
    {
        let party = Peer {
            instance: sender,
            address: source,
        };
        self.is_stored(&party) && peer.0 == self.own().0
    }

    /// An adjacency message comes. The table's answer, and whether the message is a good ACK.
    pub fn receive(&mut self, source: Addr, hello: &Hello) -> (Answer, bool)
        ensures fixed { self.new.fixed ≡ self.old.fixed }
        ensures port { self.new.port ≡ with_side self.old.port (ifmp_received self.old.port.adjacency source hello.now).side }
        ensures answer { result.0 ≡ ifmp_answer (option_map_or (λ s. s.expected) self.old.port.session 1) (ifmp_received self.old.port.adjacency source hello.now).answer }
        ensures own { IsOwn self.new.port result.0 }
        ensures good { result.1 ≡ is_good self.old.port.adjacency (ifmp_received self.old.port.adjacency source hello.now).side (heard_from source hello.now) }
    {
        let meant = self.is_meant(source, hello);
        let expected = self.expected();
        let answer = self.adjacency.receive(source, hello, expected);
        let good = hello.kind == HelloKind::Ack && self.adjacency.state() == State::Estab && meant;
        (answer, good)
    }

    /// Whether both ends of a message are right.
    fn is_meant(&self, source: Addr, hello: &Hello) -> bool
        ensures { result ≡ (same_peer (heard_from source hello.now).receiver self.now.port.adjacency.own && option_map_or (same_peer (heard_from source hello.now).sender) self.now.port.adjacency.stored false) }
    {
        let receiver = Peer {
            instance: hello.peer,
            address: hello.identity,
        };
        let sender = Peer {
            instance: hello.sender,
            address: source,
        };
        is_same(&receiver, &self.adjacency.own()) && self.is_stored(&sender)
    }

    /// A tick of the adjacency goes by. The table's answer.
    pub fn tick_side(&mut self) -> Answer
        ensures fixed { self.new.fixed ≡ self.old.fixed }
        ensures port { self.new.port ≡ with_side self.old.port (ticked self.old.port.adjacency).side }
        ensures answer { result ≡ ifmp_answer (option_map_or (λ s. s.expected) self.old.port.session 1) (ticked self.old.port.adjacency).answer }
        ensures own { IsOwn self.new.port result }
    {
        let expected = self.expected();
        self.adjacency.tick(expected)
    }

    /// The peer was heard in another way.
    pub fn heard(&mut self)
        ensures fixed { self.new.fixed ≡ self.old.fixed }
        ensures port { self.new.port ≡ with_side self.old.port (record self.old.port.adjacency { silence = 0 }) }
    {
        self.adjacency.heard();
    }

    /// From Clearing to SynSent.
    pub fn cleared(&mut self)
        requires { self.old.port.adjacency.state ≡ State.Clearing }
        ensures fixed { self.new.fixed ≡ self.old.fixed }
        ensures port { self.new.port ≡ with_side self.old.port (record self.old.port.adjacency { state = State.SynSent }) }
    {
        self.adjacency.cleared();
    }

    /// Begins anew in Clearing with this own instance. Its session is ended.
    pub fn begin_anew(&mut self, own: Instance)
        requires { self.old.port.session ≡ None }
        ensures fixed { self.new.fixed ≡ self.old.fixed }
        ensures port { self.new.port ≡ with_side self.old.port (fresh State.Clearing (record { instance = own; address = self.old.fixed.address })) }
    {
        self.adjacency = Adjacency::start(own, self.setup.address);
    }

    /// A session begins: all labels of the port's range are spare.
    pub fn begin_session(&mut self, key: Established) -> Result<(), OutOfMemory>
        requires { key ≡ self.old.port.adjacency.own.instance }
        ensures fixed { self.new.fixed ≡ self.old.fixed }
        ensures port { OnOk result (self.new.port ≡ record self.old.port { session = Some (first_session (setup_of P.meaning self.old.fixed)) }) }
    {
        let session = Session::open(
            self.alloc(),
            key,
            self.setup.least,
            self.setup.greatest,
            self.setup.timers.window,
        )?;
        if let Some(before) = mem::replace(&mut self.session, Some(session)) {
            before.abandon();
        }
        Ok(())
    }

    /// The session ends, if one is open.
    pub fn end_session(&mut self)
        ensures fixed { self.new.fixed ≡ self.old.fixed }
        ensures port { self.new.port ≡ record self.old.port { session = None } }
    {
        if let Some(session) = mem::replace(&mut self.session, None) {
            session.abandon();
        }
    }

    /// Whether a session is open.
    pub fn has_session(&self) -> bool
        ensures { result ≡ is_some self.now.port.session }
    {
        self.session.is_some()
    }

    /// Whether the numbers of its session are spent.
    pub fn is_spent(&self) -> bool
        ensures { result ≡ is_spent self.now.port.session }
    {
        match &self.session {
            Some(session) => session.is_spent(),
            None => false,
        }
    }

    /// The number that is expected next of the peer, 1 before a session.
    fn expected(&self) -> u32
        ensures { result ≡ option_map_or (λ s. s.expected) self.now.port.session 1 }
    {
        match &self.session {
            Some(session) => session.expected(),
            None => 1,
        }
    }

    /// Whether the number isn't below the expected one and isn't the last, in a session.
    pub fn is_due(&self, number: u32) -> bool
        ensures due { result ≡ is_due self.now.port.session number }
        ensures below { IsTrue result → number < 4294967295 }
    {
        match &self.session {
            Some(session) => session.expected() <= number && number < LAST_NUMBER,
            None => false,
        }
    }

    /// The number behind this one is expected next.
    pub fn expect_after(&mut self, number: u32)
        requires { number < 4294967295 }
        ensures fixed { self.new.fixed ≡ self.old.fixed }
        ensures port { self.new.port ≡ changed_session self.old.port (λ s. record s { expected = number + 1 }) }
    {
        match &mut self.session {
            Some(session) => session.expect_after(number),
            None => {}
        }
    }

    /// The peer is known to expect the greatest number that it named.
    pub fn learn(&mut self, next: u32)
        ensures fixed { self.new.fixed ≡ self.old.fixed }
        ensures port { self.new.port ≡ changed_session self.old.port (λ s. record s { known = max s.known next }) }
    {
        match &mut self.session {
            Some(session) => session.learn(next),
            None => {}
        }
    }

    /// Uses the next number of a session. Where that is the last one the numbers are spent, and none is
    /// used.
    pub fn take_number(&mut self) -> Option<u32>
        ensures fixed { self.new.fixed ≡ self.old.fixed }
        ensures number { result ≡ taken_number self.old.port.session }
        ensures port { self.new.port ≡ changed_session self.old.port after_number }
    {
        match &mut self.session {
            Some(session) => session.take_number(),
            None => None,
        }
    }
}
