//! *IFMP adjacency* (RFC 1953): a session begins on entering Estab, and an ACK tells which number the peer
//! expects.

ghost use Rattle.std.specs.Prelude.{◌≡◌, ℕ, true, IsOk, OnOk};
ghost use Rattle.adjacency_table.specs.Side.{ticked};
ghost use Rattle.port_model.specs.Adjacency.{answers, greeted, learns, steps};
ghost use Rattle.port_state.specs.Engine.{setup_of};
ghost use Rattle.port_state.specs.Parts.{IsOwn};
ghost use Rattle.port_saying.specs.Rules.{begun};
ghost use Rattle.port_saying.specs.Rules.{Ends};
ghost use Rattle.port_hearing.specs.Taking.{is_idle, is_quiet};

use branch_desk::Desk;
use flow_classifier::Policy;
use ifmp_adjacency::Answer;
use link_model::Record;
use net_types::{Addr, Hello, OutOfMemory};
use port_actions::{Actions, Outlook};
use port_model::Action;
use port_saying::{Stop, greet, quit};
use port_state::PortState;

/// An adjacency message comes. A good ACK tells which number the peer expects. Where it isn't one, and the
/// table answers nothing, no memory is taken.
pub(crate) fn greeted<P: Policy>(
    state: &mut PortState<P>,
    source: Addr,
    hello: &Hello,
    desk: &Desk,
    out: &mut Actions,
) -> Result<(), Stop>
    ensures fixed { state.new.fixed ≡ state.old.fixed }
    ensures work { (n : ℕ) → Ends result state.new.port out.new n (greeted (setup_of P.meaning state.old.fixed) desk.now (begun state.old.port out.old n) source hello.now) }
    ensures idle { is_idle state.old.port source hello.now ≡ true → IsOk result }
{
    let (answer, good) = state.receive(source, hello);
    follow(state, answer, out)?;
    if good {
        learn(state, hello.next, desk, out)?;
    }
    Ok(())
}

/// A tick of the adjacency goes by.
pub fn tick_side<P: Policy>(state: &mut PortState<P>, out: &mut Actions) -> Result<(), Stop>
    ensures fixed { state.new.fixed ≡ state.old.fixed }
    ensures work { (n : ℕ) → Ends result state.new.port out.new n (steps (setup_of P.meaning state.old.fixed) (begun state.old.port out.old n) (ticked state.old.port.adjacency)) }
{
    let answer = state.tick_side();
    follow(state, answer, out)
}

/// Does what the table answers.
fn follow<P: Policy>(
    state: &mut PortState<P>,
    answer: Answer,
    out: &mut Actions,
) -> Result<(), Stop>
    requires { IsOwn state.old.port answer }
    ensures fixed { state.new.fixed ≡ state.old.fixed }
    ensures work { (n : ℕ) → Ends result state.new.port out.new n (answers (setup_of P.meaning state.old.fixed) (begun state.old.port out.old n) answer) }
    ensures quiet { is_quiet answer ≡ true → IsOk result }
{
    match answer {
        Answer::Quiet => Ok(()),
        Answer::Send(hello) => {
            greet(hello, out)?;
            Ok(())
        }
        Answer::Open { send, key } => {
            state.begin_session(key)?;
            if let Some(hello) = send {
                greet(hello, out)?;
            }
            out.push(Action::Note(Record::Opened {
                node: state.node(),
                port: state.port(),
            }))?;
            Ok(())
        }
        Answer::Reset => {
            out.push(Action::Reset)?;
            Err(Stop::Reset)
        }
    }
}

/// The peer is known to expect the greatest number that it named, and labels are quit, the lowest first.
fn learn<P: Policy>(
    state: &mut PortState<P>,
    next: u32,
    desk: &Desk,
    out: &mut Actions,
) -> Result<(), OutOfMemory>
    ensures fixed { state.new.fixed ≡ state.old.fixed }
    ensures work { (n : ℕ) → OnOk result (learns (setup_of P.meaning state.old.fixed) desk.now (begun state.old.port out.old n) next ≡ begun state.new.port out.new n) }
{
    state.learn(next);
    let mut outlook = Outlook::of(state.alloc(), desk, out)?;
    for place in 0..state.held() {
        if let Some(number) = state.number_at(place) {
            quit(state, number, desk, &mut outlook, out)?;
        }
    }
    Ok(())
}
