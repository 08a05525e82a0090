//! The names by which lines are refused.

ghost use Rattle.std.specs.Prelude.{◌≡◌, false, Some};
ghost use Rattle.std.specs.Option.{option_and_then};
ghost use Rattle.lab_text.specs.Line.{is_want_of_memory, text_fault};
ghost use Rattle.script_model.specs.Meaning.{topology_name, event_name};
ghost use Rattle.script_model.specs.Reading.{fault_name};

use lab_text::{LINE_LIMIT, LineFault, are_script_octets};
use script_words::LineRefusal;
use world_model::{EventRefusal, TopologyRefusal};

/// The name of what a line of the topology is refused for.
pub fn topology_name(refusal: TopologyRefusal) -> LineRefusal
    ensures { result ≡ topology_name refusal }
{
    match refusal {
        TopologyRefusal::DuplicateName => LineRefusal::DuplicateName,
        TopologyRefusal::TooMany => LineRefusal::TooMany,
        TopologyRefusal::UnknownName => LineRefusal::UnknownName,
        TopologyRefusal::SelfLink => LineRefusal::SelfLink,
        TopologyRefusal::PortTaken => LineRefusal::PortTaken,
        TopologyRefusal::NoLink => LineRefusal::NoLink,
        TopologyRefusal::Duplicate => LineRefusal::Duplicate,
        TopologyRefusal::TableFull => LineRefusal::TableFull,
    }
}

/// The name of what an event is refused for.
pub fn event_name(refusal: EventRefusal) -> LineRefusal
    ensures { result ≡ event_name refusal }
{
    match refusal {
        EventRefusal::UnknownName => LineRefusal::UnknownName,
        EventRefusal::NoLink => LineRefusal::NoLink,
        EventRefusal::TableFull => LineRefusal::TableFull,
        EventRefusal::NoPrefix => LineRefusal::NoPrefix,
    }
}

/// The name of what the octets of a line are refused for.
pub fn fault_name(fault: LineFault) -> LineRefusal
    requires { is_want_of_memory fault ≡ false }
    ensures { fault_name fault ≡ Some result }
{
    match fault {
        LineFault::ScriptTooLong => LineRefusal::ScriptTooLong,
        LineFault::LineTooLong => LineRefusal::LineTooLong,
        LineFault::BadByte => LineRefusal::BadByte,
        LineFault::Arity => LineRefusal::Arity,
        LineFault::BadHex => LineRefusal::BadHex,
        LineFault::OutOfMemory(_) => unreachable!(),
    }
}

/// Why the octets of a line without an end are refused, if they are: `LineTooLong`, then `BadByte`.
pub fn text_refusal(text: &[u8]) -> Option<LineRefusal>
    ensures { result ≡ option_and_then fault_name (text_fault text.now) }
{
    if LINE_LIMIT < text.len() {
        Some(LineRefusal::LineTooLong)
    } else if !are_script_octets(text) {
        Some(LineRefusal::BadByte)
    } else {
        None
    }
}
