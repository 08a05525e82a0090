//! What the hexadecimal lines of an input are decoded to.

ghost use Rattle.std.specs.Prelude.{◌≡◌, ◌≤◌, ◌++◌, length, is_some, IfOk, OnOk};
ghost use Rattle.lab_text.specs.Line.{hex_line, input_limit, is_want_of_memory};
ghost use Rattle.lab_text.specs.declared.line.LineFault.{LineFault};
ghost use Rattle.message_text.specs.Listing.{IsListing, IsLineListed, AppendsAnswer, fault_in, refused_line, line_fault_text, refuse_text};

use crate::gsmp::write_gsmp;
use crate::ifmp::write_ifmp;
use crate::protocol::Protocol;
use lab_text::{LineFault, Text, read_hex_line, refusal_name, split_line};
use link_model::Refusal;
use net_types::{Octets, OutOfMemory};
use refusal_names::{gsmp_refusal, ifmp_refusal};
use std::alloc::Global;

/// A listing of decoded messages: the text of an input's lines, and whether a line was refused.
/// This project's own.
#[derive(Debug, Drop)]
pub struct Listed {
    /// The octets of the text.
    pub text: Octets,
    /// Whether its last line names a refused line.
    pub is_refused: bool,
}

fn fault_name(fault: LineFault) -> &'static str
    ensures { result.now ≡ line_fault_text fault }
{
    match fault {
        LineFault::ScriptTooLong => "ScriptTooLong",
        LineFault::LineTooLong => "LineTooLong",
        LineFault::BadByte => "BadByte",
        LineFault::Arity => "Arity",
        LineFault::BadHex => "BadHex",
        LineFault::OutOfMemory(_) => "OutOfMemory",
    }
}

fn write_refused_line(out: &mut Text, number: u32, fault: LineFault) -> Result<(), OutOfMemory>
    ensures { OnOk result (out.new ≡ out.old ++ refused_line number fault) }
{
    out.text("refused ")?;
    out.number(u64::from(number))?;
    out.text(" ")?;
    out.text(fault_name(fault))?;
    out.text("\n")
}

fn write_refuse(out: &mut Text, name: Refusal) -> Result<(), OutOfMemory>
    ensures { OnOk result (out.new ≡ out.old ++ refuse_text name) }
{
    out.text("refuse ")?;
    out.text(refusal_name(name))
}

#[tactic(auto, using(crate::proofs::Answers::ifmp_told, crate::proofs::Answers::ifmp_refused))]
fn answer_ifmp(out: &mut Text, octets: &[u8]) -> Result<(), OutOfMemory>
    ensures { OnOk result (AppendsAnswer Protocol.Ifmp octets.now out.old out.new) }
{
    match ifmp_wire::decode(octets) {
        Ok(message) => {
            write_ifmp(out, &message)?;
            out.text("\n")
        }
        Err(fault) => {
            write_refuse(out, ifmp_refusal(fault))?;
            out.text("\n")
        }
    }
}

#[tactic(auto, using(crate::proofs::Answers::gsmp_told, crate::proofs::Answers::gsmp_refused))]
fn answer_gsmp(out: &mut Text, octets: &[u8]) -> Result<(), OutOfMemory>
    ensures { OnOk result (AppendsAnswer Protocol.Gsmp octets.now out.old out.new) }
{
    match gsmp_wire::decode(octets) {
        Ok(message) => {
            write_gsmp(out, &message)?;
            out.text("\n")
        }
        Err(fault) => {
            write_refuse(out, gsmp_refusal(fault))?;
            out.text("\n")
        }
    }
}

fn answer(out: &mut Text, protocol: Protocol, octets: &[u8]) -> Result<(), OutOfMemory>
    ensures { OnOk result (AppendsAnswer protocol octets.now out.old out.new) }
{
    match protocol {
        Protocol::Ifmp => answer_ifmp(out, octets),
        Protocol::Gsmp => answer_gsmp(out, octets),
    }
}

fn want_of_memory(fault: LineFault) -> Option<OutOfMemory>
    ensures { is_some result ≡ is_want_of_memory fault }
{
    match fault {
        LineFault::OutOfMemory(error) => Some(error),
        _ => None,
    }
}

/// Appends the answer to one line, where it isn't blank. `before` octets of the input stand before
/// it. The answer is the line's refusal, where it is refused.
fn list_line(
    alloc: Global,
    out: &mut Text,
    protocol: Protocol,
    before: u32,
    line: &[u8],
) -> Result<Option<LineFault>, OutOfMemory>
    ensures { IfOk result (λ refused. IsLineListed protocol (hex_line before line.now) refused out.old out.new) }
{
    match read_hex_line(alloc, before, line) {
        Ok(None) => Ok(None),
        Ok(Some(octets)) => {
            answer(out, protocol, octets.as_slice())?;
            Ok(None)
        }
        Err(fault) => match want_of_memory(fault) {
            Some(error) => Err(error),
            None => Ok(Some(fault)),
        },
    }
}

/// Decodes the hexadecimal lines of an input: the text of each message, or `refuse NAME` for octets
/// that are none. The first line that isn't one word of hexadecimal, or blank, ends the text with
/// `refused N NAME`.
pub fn list_messages(alloc: Global, protocol: Protocol, input: &[u8]) -> Result<Listed, OutOfMemory>
    requires { length input.now ≤ input_limit }
    ensures text { IfOk result (λ listed. IsListing protocol input.now listed.text) }
    ensures refused { IfOk result (λ listed. listed.is_refused ≡ is_some (fault_in input.now)) }
{
    let mut out = Text::new(alloc);
    let mut rest = input;
    let mut before = 0;
    let mut number = 0;
    while !rest.is_empty() {
        let (line, others) = split_line(rest);
        match list_line(alloc, &mut out, protocol, before, line)? {
            None => {}
            Some(fault) => {
                write_refused_line(&mut out, number + 1, fault)?;
                return Ok(Listed {
                    text: out.into_octets(),
                    is_refused: true,
                });
            }
        }
        before += line.len() as u32;
        number += 1;
        rest = others;
    }
    Ok(Listed {
        text: out.into_octets(),
        is_refused: false,
    })
}
