//! One side of an adjacency.

ghost use Rattle.std.specs.Prelude.{◌≡◌, false};
ghost use Rattle.std.specs.Option.{option_map_or};

use crate::State;
use crate::message::{Answer, Heard, Said};
use net_types::HelloKind;
use std::marker::Model;

/// The greatest number of ticks in a row that a side in Estab hears nothing.
const SILENCE_LIMIT: u8 = 3;

/// The adjacency protocol state machine: one side of an adjacency between parties `P` (RFC 1987,
/// Adjacency Protocol; RFC 1953, IFMP Adjacency Protocol).
#[derive(Debug, Drop)]
pub struct Adjacency<P> {
    state: State,
    own: P,
    stored: Option<P>,
    silence: u8,
}

impl<P> Model for Adjacency<P> {
    ghost use Rattle.adjacency_table.specs.Side.{Side, IsSide};

    ghost Value = { Side P };

    ghost view = { λ a. record { state = a.state; own = a.own; stored = a.stored; silence = a.silence } };

    ghost invariant = { λ a. IsSide (record { state = a.state; own = a.own; stored = a.stored; silence = a.silence }) };
}

impl<P: Copy + PartialEq> Adjacency<P> {
    ghost use Rattle.adjacency_table.specs.Side.{IsSide, fresh, is_entry, is_open, knows_peer, received, said, ticked};

    /// A side that has heard nobody, in one of the two states in which it knows no peer.
    pub fn start(state: State, own: P) -> Adjacency<P>
        requires { knows_peer state ≡ false }
        ensures { result ≡ fresh state own }
    {
        Adjacency {
            state,
            own,
            stored: None,
            silence: 0,
        }
    }

    /// The port is cleared, and the side may greet.
    pub fn cleared(&mut self)
        requires { self.old.state ≡ State.Clearing }
        ensures { self.new ≡ record self.old { state = State.SynSent } }
    {
        self.state = State::SynSent;
    }

    /// A message of the peer comes. The answer is the table's, and opens exactly on entering Estab.
    pub fn receive(&mut self, heard: &Heard<P>) -> Answer<Said<P>, P>
        ensures side { self.new ≡ (received P.eq self.old heard.now).side }
        ensures answer { result ≡ (received P.eq self.old heard.now).answer }
        ensures opens { is_open result ≡ is_entry self.old.state self.new.state }
        ensures reset { result ≡ Answer.Reset → self.new ≡ self.old }
    {
        let meant = heard.receiver == self.own;
        let confirmed = meant && self.is_stored(&heard.sender);
        match (self.state, heard.kind) {
            (State::Clearing, _) => Answer::Quiet,
            (State::SynSent | State::SynRcvd, HelloKind::Syn) => {
                self.stored = Some(heard.sender);
                self.state = State::SynRcvd;
                Answer::Send(self.said(HelloKind::Synack))
            }
            (State::SynSent | State::SynRcvd, HelloKind::Synack) if meant => {
                self.stored = Some(heard.sender);
                self.state = State::Estab;
                self.silence = 0;
                Answer::Open {
                    send: Some(self.said(HelloKind::Ack)),
                    key: self.own,
                }
            }
            (State::SynRcvd, HelloKind::Ack) if confirmed => {
                self.state = State::Estab;
                self.silence = 0;
                Answer::Open {
                    send: None,
                    key: self.own,
                }
            }
            (State::Estab, HelloKind::Ack) if confirmed => {
                self.silence = 0;
                Answer::Quiet
            }
            (State::Estab, HelloKind::Syn | HelloKind::Synack) => {
                Answer::Send(self.said(HelloKind::Ack))
            }
            (State::SynRcvd | State::Estab, HelloKind::Rstack) if confirmed => Answer::Reset,
            (_, HelloKind::Rstack) => Answer::Quiet,
            (_, _) => Answer::Send(Said {
                kind: HelloKind::Rstack,
                sender: heard.receiver,
                receiver: Some(heard.sender),
            }),
        }
    }

    /// A tick goes by. In Estab the side says so, until it has heard nothing for too long.
    pub fn tick(&mut self) -> Answer<Said<P>, P>
        ensures side { self.new ≡ (ticked self.old).side }
        ensures answer { result ≡ (ticked self.old).answer }
        ensures opens { is_open result ≡ false }
        ensures reset { result ≡ Answer.Reset → self.new ≡ self.old }
    {
        match self.state {
            State::Clearing => Answer::Quiet,
            State::SynSent => Answer::Send(self.said(HelloKind::Syn)),
            State::SynRcvd => Answer::Send(self.said(HelloKind::Synack)),
            State::Estab if self.silence == SILENCE_LIMIT => Answer::Reset,
            State::Estab => {
                self.silence += 1;
                Answer::Send(self.said(HelloKind::Ack))
            }
        }
    }

    /// The peer was heard in another way: the silence count begins anew.
    pub fn heard(&mut self)
        ensures { self.new ≡ record self.old { silence = 0 } }
    {
        self.silence = 0;
    }

    /// The state.
    pub fn state(&self) -> State
        ensures { result ≡ self.now.state }
    {
        self.state
    }

    /// The own party.
    pub fn own(&self) -> P
        ensures { result ≡ self.now.own }
    {
        self.own
    }

    /// The peer that is stored; there is one exactly from SynRcvd on.
    pub fn peer(&self) -> Option<P>
        ensures stored { result ≡ self.now.stored }
        ensures sound { IsSide self.now }
    {
        self.stored
    }

    fn is_stored(&self, sender: &P) -> bool
        ensures { result ≡ option_map_or (P.eq sender.now) self.now.stored false }
    {
        match &self.stored {
            Some(peer) => sender == peer,
            None => false,
        }
    }

    fn said(&self, kind: HelloKind) -> Said<P>
        ensures { result ≡ said self.now kind }
    {
        let receiver = match kind {
            HelloKind::Syn => None,
            _ => self.stored,
        };
        Said {
            kind,
            sender: self.own,
            receiver,
        }
    }
}
