//! Tests of `ifmp_adjacency`.

use adjacency_table::{self as table, State};
use ifmp_adjacency::{Adjacency, Answer};
use net_types::{Addr, Hello, HelloKind, Instance};

const FIRST: Addr = Addr(0x0a00_0101);

const SECOND: Addr = Addr(0x0a00_0201);

/// The answer with what it hands out spent.
fn spent(answer: Answer) -> table::Answer<Hello, Instance> {
    match answer {
        Answer::Quiet => table::Answer::Quiet,
        Answer::Send(hello) => table::Answer::Send(hello),
        Answer::Open { send, key } => {
            let instance = key.instance();
            key.spend();
            table::Answer::Open {
                send,
                key: instance,
            }
        }
        Answer::Reset => table::Answer::Reset,
    }
}

fn hello(kind: HelloKind, sender: u32, peer: u32, identity: Addr, next: u32) -> Hello {
    Hello {
        kind,
        sender: Instance(sender),
        peer: Instance(peer),
        identity,
        next,
    }
}

/// A side of instance 1 in Estab with instance 2 as its peer.
fn in_estab() -> Adjacency {
    let mut side = Adjacency::start(Instance(1), FIRST);
    side.cleared();
    let synack = hello(HelloKind::Synack, 2, 1, FIRST, 1);
    let _ = spent(side.receive(SECOND, &synack, 1));
    side
}

/// Two routers with the instances 1 and 2 greet one another.
#[test]
fn two_routers_establish(rt: HostRuntime) {
    let mut first = Adjacency::start(Instance(1), FIRST);
    let mut second = Adjacency::start(Instance(2), SECOND);
    first.cleared();
    second.cleared();
    let nobody = Addr(0);
    let first_syn = hello(HelloKind::Syn, 1, 0, nobody, 0);
    let second_syn = hello(HelloKind::Syn, 2, 0, nobody, 0);
    assert_eq!(rt; spent(first.tick(1)), table::Answer::Send(first_syn));
    assert_eq!(rt; spent(second.tick(1)), table::Answer::Send(second_syn));
    let first_synack = hello(HelloKind::Synack, 1, 2, SECOND, 1);
    let second_synack = hello(HelloKind::Synack, 2, 1, FIRST, 1);
    let answer = spent(first.receive(SECOND, &second_syn, 1));
    assert_eq!(rt; answer, table::Answer::Send(first_synack));
    let answer = spent(second.receive(FIRST, &first_syn, 1));
    assert_eq!(rt; answer, table::Answer::Send(second_synack));
    let answer = spent(first.receive(SECOND, &second_synack, 1));
    let send = Some(hello(HelloKind::Ack, 1, 2, SECOND, 1));
    assert_eq!(rt;
        answer,
        table::Answer::Open {
            send,
            key: Instance(1)
        }
    );
    let answer = spent(second.receive(FIRST, &first_synack, 1));
    let send = Some(hello(HelloKind::Ack, 2, 1, FIRST, 1));
    assert_eq!(rt;
        answer,
        table::Answer::Open {
            send,
            key: Instance(2)
        }
    );
    assert_eq!(rt; first.state(), State::Estab);
    assert_eq!(rt; second.state(), State::Estab);
    assert_eq!(rt; first.peer(), Some((Instance(2), SECOND)));
    assert_eq!(rt; second.peer(), Some((Instance(1), FIRST)));
}

/// A side in Estab that hears nothing says ACK three times, and then is to be reset.
#[test]
fn silence_ends_an_adjacency(rt: HostRuntime) {
    let mut side = in_estab();
    let ack = hello(HelloKind::Ack, 1, 2, SECOND, 9);
    for _ in 0..3 {
        assert_eq!(rt; spent(side.tick(9)), table::Answer::Send(ack));
    }
    assert_eq!(rt; spent(side.tick(9)), table::Answer::Reset);
    assert_eq!(rt; side.state(), State::Estab);
    side.reset(Instance(3));
    assert_eq!(rt; side.state(), State::Clearing);
    assert_eq!(rt; side.peer(), None);
    let mut heard = in_estab();
    for _ in 0..9 {
        assert_eq!(rt; spent(heard.tick(9)), table::Answer::Send(ack));
        heard.heard();
    }
}

/// An RSTACK exchanges the instances, names the source, and carries no sequence number.
#[test]
fn a_stranger_is_answered_by_rstack(rt: HostRuntime) {
    let mut side = in_estab();
    let stranger = Addr(0x0a00_0901);
    let ack = hello(HelloKind::Ack, 7, 5, FIRST, 4);
    let rstack = hello(HelloKind::Rstack, 5, 7, stranger, 0);
    assert_eq!(rt;
        spent(side.receive(stranger, &ack, 9)),
        table::Answer::Send(rstack)
    );
}
