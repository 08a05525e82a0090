//! Tests of `gsmp_adjacency`.

use adjacency_table::{self as table, State};
use gsmp_adjacency::{Adjacency, Answer};
use net_types::{Greeting, HelloKind, Instance, Party};

/// How a party that isn't known is written.
const NOBODY: Party = Party {
    name: [0; 6],
    port: 0,
    instance: Instance(0),
};

/// The answer with what it hands out spent.
fn spent(answer: Answer) -> table::Answer<Greeting, Party> {
    match answer {
        Answer::Quiet => table::Answer::Quiet,
        Answer::Send(greeting) => table::Answer::Send(greeting),
        Answer::Open { send, key } => {
            let party = key.party();
            key.spend();
            table::Answer::Open { send, key: party }
        }
        Answer::Reset => table::Answer::Reset,
    }
}

/// The first node's controller.
fn controller(instance: u32) -> Party {
    Party {
        name: [2, 0, 0, 0, 0, 1],
        port: 0,
        instance: Instance(instance),
    }
}

/// The first node's switch.
fn switch(instance: u32) -> Party {
    Party {
        name: [2, 0, 0, 0, 1, 1],
        port: 0,
        instance: Instance(instance),
    }
}

fn greeting(kind: HelloKind, sender: Party, receiver: Party) -> Greeting {
    Greeting {
        kind,
        sender,
        receiver,
    }
}

/// A switch that the controller greets, and the reset that the controller's RSTACK asks for.
#[test]
fn a_switch_and_its_controller(rt: HostRuntime) {
    let mut side = Adjacency::start(switch(2));
    let syn = greeting(HelloKind::Syn, switch(2), NOBODY);
    assert_eq!(rt; spent(side.tick()), table::Answer::Send(syn));
    let synack = greeting(HelloKind::Synack, switch(2), controller(1));
    let answer = spent(side.receive(&greeting(HelloKind::Syn, controller(1), NOBODY)));
    assert_eq!(rt; answer, table::Answer::Send(synack));
    assert_eq!(rt; spent(side.tick()), table::Answer::Send(synack));
    let ack = greeting(HelloKind::Ack, controller(1), switch(2));
    let answer = spent(side.receive(&ack));
    assert_eq!(rt;
        answer,
        table::Answer::Open {
            send: None,
            key: switch(2)
        }
    );
    assert_eq!(rt; side.state(), State::Estab);
    assert_eq!(rt; side.peer(), Some(controller(1)));
    let stale = greeting(HelloKind::Ack, controller(5), switch(2));
    let rstack = greeting(HelloKind::Rstack, switch(2), controller(5));
    assert_eq!(rt; spent(side.receive(&stale)), table::Answer::Send(rstack));
    let rstack = greeting(HelloKind::Rstack, controller(1), switch(2));
    assert_eq!(rt; spent(side.receive(&rstack)), table::Answer::Reset);
    side.reset(Instance(3));
    assert_eq!(rt; side.state(), State::SynSent);
    assert_eq!(rt; side.peer(), None);
    let syn = greeting(HelloKind::Syn, switch(3), NOBODY);
    assert_eq!(rt; spent(side.tick()), table::Answer::Send(syn));
}

/// Where a SYNACK names the own party, an ACK is sent and Estab entered; silence ends it.
#[test]
fn silence_ends_an_adjacency(rt: HostRuntime) {
    let mut side = Adjacency::start(controller(1));
    let ack = greeting(HelloKind::Ack, controller(1), switch(2));
    let synack = greeting(HelloKind::Synack, switch(2), controller(1));
    let answer = spent(side.receive(&synack));
    assert_eq!(rt;
        answer,
        table::Answer::Open {
            send: Some(ack),
            key: controller(1)
        }
    );
    for _ in 0..9 {
        assert_eq!(rt; spent(side.tick()), table::Answer::Send(ack));
        side.heard();
    }
    for _ in 0..3 {
        assert_eq!(rt; spent(side.tick()), table::Answer::Send(ack));
    }
    assert_eq!(rt; spent(side.tick()), table::Answer::Reset);
}
