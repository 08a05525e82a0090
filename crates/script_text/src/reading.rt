//! Reading a line.

ghost use Rattle.std.specs.Prelude.{◌≡◌, IfOk};
ghost use Rattle.lab_text.specs.Words.{line_text};
ghost use Rattle.script_model.specs.Grammar.{Routes};
ghost use Rattle.script_model.specs.Meaning.{meant, place_at};
ghost use Rattle.script_model.specs.Sayable.{IsSayable};
ghost use Rattle.script_model.specs.Reading.{text_says, line_says, string_says};
ghost use Rattle.script_words.specs.Told.{told, side_told, HasNumbers};
ghost use Rattle.script_text.specs.Counts.{counted_up_to, HasRoom};
ghost use Rattle.script_text.specs.Taking.{Takes, IsAfter};

use crate::fault::ReadFault;
use crate::names::{fault_name, text_refusal};
use crate::state::ScriptState;
use ipv4_forward::{Next, RouteChange};
use lab_text::check_line;
use net_types::{CONTROL_PORT, NodeId, Place, Prefix};
use script_model::Line;
use script_words::{Said, Side, read_words};
use world_model::Event;

/// A queue of a node.
fn place_at(side: Side, node: NodeId) -> Place
    ensures { result ≡ place_at (side_told side) node }
{
    match side {
        Side::FromController => Place::Down(node),
        Side::FromPort(CONTROL_PORT) => Place::Up(node),
        Side::FromPort(port) => Place::Out(node, port),
    }
}

/// A route of the node of this name is set, or ended, behind the lines before, or it can't be.
fn mean_routes(
    state: &mut ScriptState,
    name: &[u8],
    prefix: Prefix,
    next: Option<Next>,
) -> Result<Line, ReadFault>
    ensures { Takes state.old (meant state.old (Routes name.now prefix next)) state.new result }
{
    let node = state.named(name)?;
    state.take_change(node, RouteChange { prefix, next })
}

/// What is said means something behind the lines before, or it can't.
fn mean(state: &mut ScriptState, said: &Said<'_>) -> Result<Line, ReadFault>
    requires { HasNumbers said.now }
    ensures { Takes state.old (meant state.old (told said.now)) state.new result }
{
    match said {
        Said::Describes(said) => state.describe(said),
        Said::Sends { name, digits } => {
            let node = state.named(name)?;
            state.take_packet(node, digits)
        }
        Said::Carries { name, side } => {
            let place = place_at(*side, state.named(name)?);
            Ok(state.take_at(place, Event::Carry(place))?)
        }
        Said::Loses { name, side } => {
            let place = place_at(*side, state.named(name)?);
            Ok(state.take_at(place, Event::Lose(place))?)
        }
        Said::Ticks { name } => {
            let node = state.named(name)?;
            Ok(state.take(Line::Event(Event::Tick(node)))?)
        }
        Said::TicksAll => Ok(state.take(Line::TickAll)?),
        Said::TicksSwitch { name } => {
            let node = state.named(name)?;
            Ok(state.take(Line::Event(Event::TickSwitch(node)))?)
        }
        Said::Restarts { name } => {
            let node = state.named(name)?;
            Ok(state.take(Line::Event(Event::Restart(node)))?)
        }
        Said::RestartsSwitch { name } => {
            let node = state.named(name)?;
            Ok(state.take(Line::Event(Event::RestartSwitch(node)))?)
        }
        Said::Runs { rounds } => Ok(state.take(Line::Run(*rounds))?),
        Said::Forges {
            name,
            side,
            channel,
            digits,
        } => {
            let place = place_at(*side, state.named(name)?);
            state.take_frame(place, *channel, digits)
        }
        Said::Routes { name, prefix, next } => mean_routes(state, name, *prefix, *next),
    }
}

/// Reads the text of a line whose octets are those of one.
fn read_text(state: &mut ScriptState, text: &[u8]) -> Result<Line, ReadFault>
    ensures { Takes state.old (text_says state.old text.now) state.new result }
{
    match read_words(state.topology().version(), text) {
        Ok(None) => Ok(Line::Blank),
        Ok(Some(said)) => mean(state, &said),
        Err(refusal) => Err(ReadFault::Refused(refusal)),
    }
}

/// Reads the next line of a script, with its LF or CR LF where it has one. The first test that it
/// fails gives its refusal: `ScriptTooLong`, `LineTooLong`, `BadByte`; unless it is blank, those of its
/// words; `Late`; and those of what it means. Want of memory comes only to a line that none of them
/// refuses. A refused line, and one that memory was wanting for, leave the state as it was but for the
/// counts of octets and lines.
pub fn read_line(state: &mut ScriptState, line: &[u8]) -> Result<Line, ReadFault>
    ensures said { Takes (counted_up_to state.old line.now) (line_says state.old line.now) state.new result }
    ensures after { HasRoom state.old line.now → IsAfter state.old line.now state.new result }
    ensures sayable { IfOk result (IsSayable state.old) }
{
    let before = state.octets();
    state.count_line(line);
    match check_line(before, line) {
        Ok(text) => read_text(state, text),
        Err(fault) => Err(ReadFault::Refused(fault_name(fault))),
    }
}

/// Reads the next line of a document: a string, which has no end. Its refusals are those of
/// [`read_line`] without `ScriptTooLong`.
pub fn read_string(state: &mut ScriptState, text: &[u8]) -> Result<Line, ReadFault>
    ensures said { Takes (counted_up_to state.old text.now) (string_says state.old text.now) state.new result }
    ensures after { HasRoom state.old text.now → IsAfter state.old text.now state.new result }
    ensures sayable { IfOk result (IsSayable state.old) }
{
    state.count_line(text);
    match text_refusal(text) {
        None => read_text(state, text),
        Some(refusal) => Err(ReadFault::Refused(refusal)),
    }
}
