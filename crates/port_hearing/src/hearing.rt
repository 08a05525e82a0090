//! A message of IFMP comes (RFC 1953).

ghost use Rattle.std.specs.Prelude.{◌≡◌, ◌<◌, ℕ, option_map, true, List, Some, IsTrue, IsOk, IfSome};
ghost use Rattle.net_types.specs.Label.{is_label_number, label_number_of};
ghost use Rattle.ifmp_wire.specs.Message.{InRange};
ghost use Rattle.port_labels.specs.Read.{label_of};
ghost use Rattle.port_model.specs.declared.action.Action.{Action as ActionValue};
ghost use Rattle.port_model.specs.Hearing.{hears, label_by};
ghost use Rattle.port_model.specs.Port.{label_at, labels_of};
ghost use Rattle.port_model.specs.Redirection.{expects, takes};
ghost use Rattle.port_state.specs.Engine.{setup_of};
ghost use Rattle.port_saying.specs.Rules.{begun};
ghost use Rattle.port_saying.specs.Rules.{Ends};
ghost use Rattle.port_hearing.specs.Taking.{follows, is_ignored, is_redirection};

use crate::greeting::greeted;
use crate::reclaiming::{acknowledged, error_comes, ranged, reclaimed};
use crate::redirection::redirected;
use branch_desk::Desk;
use flow_classifier::Policy;
use ifmp_wire::Message;
use net_types::{Addr, Channel, Instance, label_number};
use port_actions::Actions;
use port_labels::HeldLabel;
use port_saying::Stop;
use port_state::PortState;

/// A message is heard. One that is ignored takes no memory.
pub fn hear<P: Policy>(
    state: &mut PortState<P>,
    source: Addr,
    message: &Message,
    desk: &Desk,
    out: &mut Actions,
) -> Result<(), Stop>
    requires { InRange message.now }
    ensures fixed { state.new.fixed ≡ state.old.fixed }
    ensures work { (n : ℕ) → Ends result state.new.port out.new n (hears (setup_of P.meaning state.old.fixed) desk.now (begun state.old.port out.old n) source message.now) }
    ensures ignored { is_ignored state.old.port source message.now ≡ true → IsOk result }
{
    if let Message::Adjacency(hello) = message {
        return greeted(state, source, hello, desk, out);
    }
    let names = message.names();
    if !takes(state, source, names.sender, names.peer, names.number) {
        return Ok(());
    }
    expect(state, names.number);
    follow(state, message, desk, out)
}

/// A redirection message is taken, by its kind.
fn follow<P: Policy>(
    state: &mut PortState<P>,
    message: &Message,
    desk: &Desk,
    out: &mut Actions,
) -> Result<(), Stop>
    requires { is_redirection message.now ≡ true }
    ensures fixed { state.new.fixed ≡ state.old.fixed }
    ensures work { (n : ℕ) → Ends result state.new.port out.new n (follows (setup_of P.meaning state.old.fixed) desk.now (begun state.old.port out.old n) message.now) }
{
    match *message {
        Message::Adjacency(_) => unreachable!(),
        Message::Redirect {
            lifetime,
            label,
            flow,
            ..
        } => redirected(state, label, flow, lifetime, desk, out),
        Message::Reclaim { label, flow, .. } => reclaimed(state, label, flow, out),
        Message::ReclaimAck { label, flow, .. } => acknowledged(state, label, flow, desk, out),
        Message::LabelRange {
            least,
            greatest,
            ..
        } => ranged(state, least, greatest, out),
        Message::Error { code, label, .. } => error_comes(state, code, label, out),
    }
}

/// Whether a redirection message is taken: in Estab alone, from the stored peer and for the own instance,
/// and under a number that isn't below the expected one and isn't the last.
fn takes<P: Policy>(
    state: &PortState<P>,
    source: Addr,
    sender: Instance,
    peer: Instance,
    number: u32,
) -> bool
    ensures takes { result ≡ takes state.now.port source sender peer number }
    ensures number { IsTrue result → number < 4294967295 }
{
    state.is_from_peer(source, sender, peer) && state.is_due(number)
}

/// The peer was heard, and the next number is expected.
fn expect<P: Policy>(state: &mut PortState<P>, number: u32)
    requires { number < 4294967295 }
    ensures fixed { state.new.fixed ≡ state.old.fixed }
    ensures work { (n : ℕ) (actions : List ActionValue) → expects (begun state.old.port actions n) number ≡ begun state.new.port actions n }
    ensures grants { state.new.port.grants ≡ state.old.port.grants }
    ensures labels { labels_of state.new.port ≡ labels_of state.old.port }
{
    state.expect_after(number);
    state.heard();
}

/// The label that a message names by its channel, if it is held.
pub fn label_by<P: Policy>(state: &PortState<P>, channel: Channel) -> Option<HeldLabel>
    ensures label { option_map label_of result ≡ label_by state.now.port (label_number_of channel) }
    ensures range { IfSome result (λ label. IsTrue (is_label_number label.number)) }
    ensures number { IfSome result (λ label. label_at state.now.port label.number ≡ label_by state.now.port (label_number_of channel)) }
    ensures channel { IfSome result (λ label. label_number_of channel ≡ Some label.number) }
{
    match label_number(channel) {
        Some(number) => state.label_at(number),
        None => None,
    }
}
