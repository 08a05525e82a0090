//! Tests of `adjacency_table`. Party 1 is the side's own, 2 is its peer where it knows one, 3 is another, and 0
//! stands for none.

use HelloKind::{Ack, Rstack, Syn, Synack};
use Reply::{Open, OpenWithAck, Quiet, Reset, Say};
use State::{Clearing, Estab, SynRcvd, SynSent};
use adjacency_table::*;
use net_types::HelloKind;

/// What is answered.
#[derive(Clone, Copy)]
enum Reply {
    /// Nothing.
    Quiet,
    /// A message, with its sender and its receiver.
    Say(HelloKind, u8, u8),
    /// Estab is entered, and nothing is said.
    Open,
    /// Estab is entered, and an ACK is sent to this receiver.
    OpenWithAck(u8),
    /// The adjacency is over.
    Reset,
}

/// Every row of the table: the state, the message with its sender and its receiver, the state after it, the
/// peer that is stored then, and the answer.
const ROWS: [(State, HelloKind, u8, u8, State, u8, Reply); 21] = [
    (Clearing, Syn, 2, 0, Clearing, 0, Quiet),
    (Clearing, Ack, 2, 3, Clearing, 0, Quiet),
    (SynSent, Syn, 2, 0, SynRcvd, 2, Say(Synack, 1, 2)),
    (SynSent, Synack, 2, 1, Estab, 2, OpenWithAck(2)),
    (SynSent, Synack, 2, 3, SynSent, 0, Say(Rstack, 3, 2)),
    (SynSent, Ack, 2, 1, SynSent, 0, Say(Rstack, 1, 2)),
    (SynSent, Rstack, 2, 1, SynSent, 0, Quiet),
    (SynRcvd, Syn, 3, 0, SynRcvd, 3, Say(Synack, 1, 3)),
    (SynRcvd, Synack, 3, 1, Estab, 3, OpenWithAck(3)),
    (SynRcvd, Synack, 2, 3, SynRcvd, 2, Say(Rstack, 3, 2)),
    (SynRcvd, Ack, 2, 1, Estab, 2, Open),
    (SynRcvd, Ack, 3, 1, SynRcvd, 2, Say(Rstack, 1, 3)),
    (SynRcvd, Ack, 2, 3, SynRcvd, 2, Say(Rstack, 3, 2)),
    (SynRcvd, Rstack, 2, 1, SynRcvd, 2, Reset),
    (SynRcvd, Rstack, 3, 1, SynRcvd, 2, Quiet),
    (Estab, Syn, 3, 0, Estab, 2, Say(Ack, 1, 2)),
    (Estab, Synack, 3, 1, Estab, 2, Say(Ack, 1, 2)),
    (Estab, Ack, 2, 1, Estab, 2, Quiet),
    (Estab, Ack, 3, 1, Estab, 2, Say(Rstack, 1, 3)),
    (Estab, Rstack, 2, 1, Estab, 2, Reset),
    (Estab, Rstack, 2, 3, Estab, 2, Quiet),
];

/// What a tick says in each state.
const TICKS: [(State, Reply); 4] = [
    (Clearing, Quiet),
    (SynSent, Say(Syn, 1, 0)),
    (SynRcvd, Say(Synack, 1, 2)),
    (Estab, Say(Ack, 1, 2)),
];

/// The answer of a side of party 1.
fn answer_of(reply: Reply) -> Answer<Said<u8>, u8> {
    match reply {
        Quiet => Answer::Quiet,
        Say(kind, sender, receiver) => Answer::Send(said(kind, sender, receiver)),
        Open => Answer::Open { send: None, key: 1 },
        OpenWithAck(receiver) => Answer::Open {
            send: Some(said(Ack, 1, receiver)),
            key: 1,
        },
        Reset => Answer::Reset,
    }
}

fn said(kind: HelloKind, sender: u8, receiver: u8) -> Said<u8> {
    Said {
        kind,
        sender,
        receiver: party(receiver),
    }
}

fn party(number: u8) -> Option<u8> {
    if number == 0 { None } else { Some(number) }
}

fn heard(kind: HelloKind, sender: u8, receiver: u8) -> Heard<u8> {
    Heard {
        kind,
        sender,
        receiver,
    }
}

/// A side in this state.
fn side_in(state: State) -> Adjacency<u8> {
    let mut side = match state {
        Clearing => Adjacency::start(Clearing, 1),
        _ => Adjacency::start(SynSent, 1),
    };
    if matches!(state, SynRcvd | Estab) {
        let _ = side.receive(&heard(Syn, 2, 0));
    }
    if matches!(state, Estab) {
        let _ = side.receive(&heard(Synack, 2, 1));
    }
    side
}

#[test]
fn each_row_of_the_table(rt: HostRuntime) {
    for &(before, kind, sender, receiver, after, peer, reply) in &ROWS {
        let mut side = side_in(before);
        let answer = side.receive(&heard(kind, sender, receiver));
        assert_eq!(rt;
            (answer, side.state(), side.peer()),
            (answer_of(reply), after, party(peer))
        );
    }
}

#[test]
fn each_state_at_a_tick(rt: HostRuntime) {
    for &(state, reply) in &TICKS {
        assert_eq!(rt; side_in(state).tick(), answer_of(reply));
    }
}

/// The fourth silent tick in a row is a reset, also where the count began anew at the third: something was
/// heard in another way, or an ACK came.
#[test]
fn silence_is_counted_in_ticks(rt: HostRuntime) {
    let mut side = side_in(Estab);
    for place in 0..11 {
        if place == 3 {
            side.heard();
        }
        if place == 6 {
            let _ = side.receive(&heard(Ack, 2, 1));
        }
        assert_eq!(rt; side.tick() == Answer::Reset, place >= 9, "tick {place}");
    }
}
