//! Numbered messages, and the end of the numbers.

ghost use Rattle.std.specs.Prelude.{◌≡◌, ◌++◌, ◌∷◌, ℕ, [], None, IsTrue, IsOk, OnOk};
ghost use Rattle.net_types.specs.Label.{is_label_number};
ghost use Rattle.port_model.specs.Desk.{Desk as DeskValue};
ghost use Rattle.ifmp_wire.specs.declared.message.Message.TheVariants.{Adjacency};
ghost use Rattle.port_actions.specs.Outlook.{Foresees, Outlook as OutlookValue};
ghost use Rattle.port_model.specs.declared.action.Action.TheVariants.{Say};
ghost use Rattle.port_model.specs.Labels.{Label};
ghost use Rattle.port_model.specs.Saying.{halts_if_spent, error, label_range, reclaim, redirect, says, tells};
ghost use Rattle.port_state.specs.Engine.{setup_of};
ghost use Rattle.port_state.specs.Parts.{numbers_of, taken_number};
ghost use Rattle.port_saying.specs.Rules.{begun};
ghost use Rattle.port_saying.specs.Rules.{Ends};
ghost use Rattle.port_saying.specs.Unnumbered.{code_number, unnumbered};

use crate::stop::Stop;
use flow_classifier::Policy;
use ifmp_wire::Message;
use ipv4_packet::FlowId;
use net_types::{Channel, Hello, Instance, OutOfMemory, label_channel};
use port_actions::Actions;
use port_model::Action;
use port_state::PortState;

/// A message of the IFMP Redirection Protocol (RFC 1953), but for the instances of both ends and
/// its Sequence Number.
#[derive(Clone, Copy, Debug)]
pub enum Unnumbered {
    /// The label may be used for a flow for so many ticks.
    Redirect {
        lifetime: u16,
        label: Channel,
        flow: FlowId,
    },
    /// The label may not be used for the flow any more.
    Reclaim {
        label: Channel,
        flow: FlowId,
    },
    /// It isn't used any more.
    ReclaimAck {
        label: Channel,
        flow: FlowId,
    },
    /// The labels that may be redirected to lie between these channels.
    LabelRange {
        least: Channel,
        greatest: Channel,
    },
    /// A redirection message of a label is refused.
    Error {
        code: ErrorCode,
        label: Channel,
    },
}

/// The error code of an IFMP Error message (RFC 1953): why a redirection message is refused. The
/// codes are this project's own.
#[derive(Clone, Copy, Debug)]
pub enum ErrorCode {
    /// Another flow holds the label: 1.
    Taken,
    /// The grant of the label is leaving: 2.
    Leaving,
    /// The port has 256 grants: 3.
    Full,
    /// The label is granted for another flow: 4.
    Mismatch,
}

impl ErrorCode {
    /// Its number in the message, 1 to 4.
    pub fn code(self) -> u8
        ensures { result ≡ code_number self }
    {
        match self {
            ErrorCode::Taken => 1,
            ErrorCode::Leaving => 2,
            ErrorCode::Full => 3,
            ErrorCode::Mismatch => 4,
        }
    }
}

impl Unnumbered {
    /// The message with the instances of both ends and its number.
    fn message(self, sender: Instance, peer: Instance, number: u32) -> Message
        ensures { result ≡ unnumbered self sender peer number }
    {
        match self {
            Unnumbered::Reclaim { label, flow } => Message::Reclaim {
                sender,
                peer,
                number,
                label,
                flow,
            },
            Unnumbered::ReclaimAck { label, flow } => Message::ReclaimAck {
                sender,
                peer,
                number,
                label,
                flow,
            },
            Unnumbered::Redirect {
                lifetime,
                label,
                flow,
            } => Message::Redirect {
                sender,
                peer,
                number,
                lifetime,
                label,
                flow,
            },
            Unnumbered::Error { code, label } => Message::Error {
                sender,
                peer,
                number,
                code: code.code(),
                label,
            },
            Unnumbered::LabelRange { least, greatest } => Message::LabelRange {
                sender,
                peer,
                number,
                least,
                greatest,
            },
        }
    }
}

/// Says an adjacency message.
pub fn greet(hello: Hello, out: &mut Actions) -> Result<(), OutOfMemory>
    ensures { OnOk result (out.new ≡ out.old ++ Say (Adjacency hello) ∷ []) }
{
    out.push(Action::Say(Message::Adjacency(hello)))
}

/// Says a redirection message under the next number. Where that is the last one, it isn't said, the
/// numbers are spent, and no memory is wanting.
pub fn tell<P: Policy>(
    state: &mut PortState<P>,
    message: Unnumbered,
    out: &mut Actions,
) -> Result<(), OutOfMemory>
    ensures fixed { state.new.fixed ≡ state.old.fixed }
    ensures work { (n : ℕ) → OnOk result (tells (begun state.old.port out.old n) (unnumbered message) ≡ begun state.new.port out.new n) }
    ensures numbers { numbers_of state.new.port ≡ numbers_of state.old.port }
    ensures quiet { (o : OutlookValue) (d : DeskValue) → Foresees o d out.old → OnOk result (Foresees o d out.new) }
    ensures memory { taken_number state.old.port.session ≡ None → IsOk result }
{
    let own = state.own();
    let peer = state.peer();
    match state.take_number() {
        Some(number) => out.push(Action::Say(message.message(own, peer, number))),
        None => Ok(()),
    }
}

/// A port whose numbers are spent asks to be reset.
fn close<P: Policy>(state: &PortState<P>, out: &mut Actions) -> Result<(), Stop>
    ensures work { (n : ℕ) → Ends result state.now.port out.new n (halts_if_spent (begun state.now.port out.old n)) }
    ensures quiet { (o : OutlookValue) (d : DeskValue) → Foresees o d out.old → OnOk result (Foresees o d out.new) }
{
    if !state.is_spent() {
        return Ok(());
    }
    out.push(Action::Reset)?;
    Err(Stop::Reset)
}

/// Says a redirection message, and asks to be reset where the numbers are spent.
pub fn say<P: Policy>(
    state: &mut PortState<P>,
    message: Unnumbered,
    out: &mut Actions,
) -> Result<(), Stop>
    ensures fixed { state.new.fixed ≡ state.old.fixed }
    ensures work { (n : ℕ) → Ends result state.new.port out.new n (says (begun state.old.port out.old n) (unnumbered message)) }
    ensures numbers { numbers_of state.new.port ≡ numbers_of state.old.port }
    ensures quiet { (o : OutlookValue) (d : DeskValue) → Foresees o d out.old → OnOk result (Foresees o d out.new) }
{
    tell(state, message, out)?;
    close(state, out)
}

/// Says REDIRECT of a label.
pub fn say_redirect<P: Policy>(
    state: &mut PortState<P>,
    label: u16,
    flow: FlowId,
    out: &mut Actions,
) -> Result<(), Stop>
    requires { IsTrue (is_label_number label) }
    ensures fixed { state.new.fixed ≡ state.old.fixed }
    ensures work { (n : ℕ) (held : Label) → held.number ≡ label → held.flow ≡ flow → Ends result state.new.port out.new n (says (begun state.old.port out.old n) (redirect (setup_of P.meaning state.old.fixed) held)) }
    ensures numbers { numbers_of state.new.port ≡ numbers_of state.old.port }
    ensures quiet { (o : OutlookValue) (d : DeskValue) → Foresees o d out.old → OnOk result (Foresees o d out.new) }
{
    let redirect = Unnumbered::Redirect {
        lifetime: state.lifetime(),
        label: label_channel(label),
        flow,
    };
    say(state, redirect, out)
}

/// Says RECLAIM of a label.
pub fn say_reclaim<P: Policy>(
    state: &mut PortState<P>,
    label: u16,
    flow: FlowId,
    out: &mut Actions,
) -> Result<(), Stop>
    requires { IsTrue (is_label_number label) }
    ensures fixed { state.new.fixed ≡ state.old.fixed }
    ensures work { (n : ℕ) (held : Label) → held.number ≡ label → held.flow ≡ flow → Ends result state.new.port out.new n (says (begun state.old.port out.old n) (reclaim held)) }
    ensures numbers { numbers_of state.new.port ≡ numbers_of state.old.port }
    ensures quiet { (o : OutlookValue) (d : DeskValue) → Foresees o d out.old → OnOk result (Foresees o d out.new) }
{
    let reclaim = Unnumbered::Reclaim {
        label: label_channel(label),
        flow,
    };
    say(state, reclaim, out)
}

/// Says LABEL RANGE.
pub fn say_range<P: Policy>(state: &mut PortState<P>, out: &mut Actions) -> Result<(), Stop>
    ensures fixed { state.new.fixed ≡ state.old.fixed }
    ensures work { (n : ℕ) → Ends result state.new.port out.new n (says (begun state.old.port out.old n) (label_range (setup_of P.meaning state.old.fixed))) }
{
    let range = Unnumbered::LabelRange {
        least: state.least_channel(),
        greatest: state.greatest_channel(),
    };
    say(state, range, out)
}

/// Says ERROR.
pub fn say_error<P: Policy>(
    state: &mut PortState<P>,
    code: ErrorCode,
    label: Channel,
    out: &mut Actions,
) -> Result<(), Stop>
    ensures fixed { state.new.fixed ≡ state.old.fixed }
    ensures work { (n : ℕ) → Ends result state.new.port out.new n (says (begun state.old.port out.old n) (error (code_number code) label)) }
{
    say(state, Unnumbered::Error { code, label }, out)
}
