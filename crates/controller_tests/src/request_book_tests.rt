//! What a book, with its desk, does with requests and answers.

ghost use Rattle.std.specs.Prelude.{◌≡◌, true};
ghost use Rattle.branch_desk.specs.Requests.{has_function};

use controller_requests::{Answer, RequestBook};
use gsmp_wire::{BranchKind, Message, PortRow, PortRows, Request};
use net_types::{Channel, End, PortNo};
use std::process::Abort;
use std::test::Fail;

/// Label 32 of port 1, and the channel of the control port that stands for it.
const LABEL: End = End {
    port: PortNo(1),
    channel: Channel { vpi: 0, vci: 32 },
};

const HOME: End = End {
    port: PortNo(0),
    channel: Channel { vpi: 16, vci: 32 },
};

/// Label 32 of port 2.
const OTHER: End = End {
    port: PortNo(2),
    channel: Channel { vpi: 0, vci: 32 },
};

/// Where Delete Tree of the first label stands under number 1, and that of the other under 2: the type of
/// an answer, its result and its number, and what it means, as the request that is done, or the number and
/// code of one that failed.
const ANSWERS: [(BranchKind, u8, u32, Option<Result<Request, (u32, u8)>>); 4] = [
    (BranchKind::Delete, 3, 3, None),
    (BranchKind::Add, 3, 1, None),
    (
        BranchKind::Delete,
        3,
        1,
        Some(Ok(Request::DeleteTree { input: LABEL })),
    ),
    (BranchKind::Delete, 4, 2, Some(Err((2, 6)))),
];

/// An answer to a request of a branch.
fn answered(kind: BranchKind, outcome: u8, transaction: u32) -> Message {
    Message::Branch {
        kind,
        result: outcome,
        code: 6,
        transaction,
        session: 9,
        input_port: 1,
        input: LABEL.channel,
        output_port: 0,
        output: HOME.channel,
        branches: 1,
        priority: 0,
    }
}

/// The answer to All Ports under number 1: port 1 is up, in session 9.
fn ports() -> Message {
    let mut rows = PortRows::new();
    rows.push(PortRow {
        port: 1,
        session: 9,
        up: true,
        least: 32,
        greatest: 95,
    });
    Message::AllPorts {
        result: 3,
        code: 0,
        transaction: 1,
        rows,
    }
}

/// Asks a request of a book that isn't full, in a session that goes on.
fn ask(rt: &impl Abort, book: &mut RequestBook, request: Request) -> u32
    requires { has_function request ≡ true }
{
    assert!(rt; book.standing() < 4096);
    assert!(rt; book.desk().next_number() < 4_294_967_295);
    book.ask(request)
}

/// An answer comes.
fn hear(
    rt: &impl Abort,
    book: &mut RequestBook,
    answer: &Message,
) -> Option<Result<Request, (u32, u8)>> {
    match book.answer(answer) {
        Answer::Unknown => None,
        Answer::Done(done) => {
            let request = done.done().request();
            done.redeem();
            Some(Ok(request))
        }
        Answer::Ports(ports, done) => {
            assert_eq!(rt; ports.at(0), Some((1, 9, true)));
            assert_eq!(rt; ports.at(1), None);
            let request = done.done().request();
            done.redeem();
            Some(Ok(request))
        }
        Answer::Failed { number, code } => Some(Err((number, code))),
    }
}

/// A request takes the place of the one on its input, and Delete All that of all on its port.
#[test]
fn a_request_takes_the_place_of_others(rt: HostRuntime) -> Result<(), Fail> {
    let mut book = RequestBook::open(rt.alloc())?;
    ask(&rt, &mut book, Request::DeleteTree { input: OTHER });
    ask(&rt, &mut book, Request::VerifyTree { input: LABEL });
    assert!(rt; !book.is_led_home(LABEL, HOME));
    let moved = Request::MoveBranch {
        input: LABEL,
        from: OTHER,
        to: HOME,
    };
    assert_eq!(rt; (ask(&rt, &mut book, moved), book.standing()), (3, 2));
    assert!(rt; book.is_led_home(LABEL, HOME));
    let all = Request::DeleteAll { port: PortNo(1) };
    assert_eq!(rt; (ask(&rt, &mut book, all), book.standing()), (4, 2));
    assert_eq!(rt; book.desk().delete_all_on(PortNo(1)), Some(4));
    assert_eq!(rt; book.desk().on(OTHER), Some(1));
    book.abandon();
    Ok(())
}

/// An answer has the number and the type of its request.
#[test]
fn what_is_done_has_its_ticket(rt: HostRuntime) -> Result<(), Fail> {
    let mut book = RequestBook::open(rt.alloc())?;
    ask(&rt, &mut book, Request::DeleteTree { input: LABEL });
    ask(&rt, &mut book, Request::DeleteTree { input: OTHER });
    for &(kind, outcome, number, meaning) in &ANSWERS {
        let answer = answered(kind, outcome, number);
        assert_eq!(rt; hear(&rt, &mut book, &answer), meaning);
    }
    book.abandon();
    Ok(())
}

/// All Ports tells the session with which an Add Branch is sent.
#[test]
fn a_request_has_the_session_of_its_input_port(rt: HostRuntime) -> Result<(), Fail> {
    let mut book = RequestBook::open(rt.alloc())?;
    ask(&rt, &mut book, Request::AllPorts);
    assert_eq!(rt; hear(&rt, &mut book, &ports()), Some(Ok(Request::AllPorts)));
    let add = Request::AddBranch {
        input: LABEL,
        output: HOME,
    };
    ask(&rt, &mut book, add);
    let Some(
        Message::Branch {
            result: outcome,
            transaction,
            session,
            input_port,
            input,
            output_port,
            output,
            ..
        },
    ) = book.message_at(0)
    else {
        panic!(rt; "an Add Branch stands")
    };
    assert_eq!(rt; (outcome, transaction, session), (2, 2, 9));
    assert_eq!(rt; (input_port, input), (1, LABEL.channel));
    assert_eq!(rt; (output_port, output), (0, HOME.channel));
    book.abandon();
    Ok(())
}
