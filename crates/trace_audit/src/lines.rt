//! What a line of a trace says.

ghost use Rattle.std.specs.Prelude.{◌≡◌, ◌<◌, length, true, IfOk, IfSome};
ghost use Rattle.lab_text.specs.Words.{words};
ghost use Rattle.trace_model.specs.Lines.{said, said_bind, said_end, said_frame, said_link, said_lost, said_put, said_take, text_says};
ghost use Rattle.trace_audit.specs.Faults.{Tells, HasLiving};

use crate::fault::AuditFault;
use crate::forms::{
    read_channel, read_end, read_flow, read_label, read_mark, read_name, read_payload, read_port,
};
use lab_text::{is_blank_line, split_word};
use std::alloc::Global;
use trace_model::{TraceEnd, TraceLabel, TraceLine, TraceRefusal};
use word_forms::{four_words, one_word, three_words, two_words};

/// `link END END`
fn link_line(rest: &[u8]) -> Result<TraceLine, TraceRefusal>
    ensures said { result ≡ said_link (words rest.now) }
    ensures living { IfOk result HasLiving }
{
    let Some((first, second)) = two_words(rest) else {
        return Err(TraceRefusal::Arity);
    };
    let first = read_end(first)?;
    let second = read_end(second)?;
    Ok(TraceLine::Link { first, second })
}

/// `take END`
fn take_line(rest: &[u8]) -> Result<TraceLine, TraceRefusal>
    ensures said { result ≡ said_take (words rest.now) }
    ensures living { IfOk result HasLiving }
{
    let Some(end) = one_word(rest) else {
        return Err(TraceRefusal::Arity);
    };
    let end = read_end(end)?;
    Ok(TraceLine::Take { end })
}

/// `lost END`
fn lost_line(rest: &[u8]) -> Result<TraceLine, TraceRefusal>
    ensures said { result ≡ said_lost (words rest.now) }
    ensures living { IfOk result HasLiving }
{
    let Some(end) = one_word(rest) else {
        return Err(TraceRefusal::Arity);
    };
    let end = read_end(end)?;
    Ok(TraceLine::Lost { end })
}

/// `frame MARK HEX`
fn frame_line(alloc: Global, rest: &[u8]) -> Result<TraceLine, AuditFault>
    ensures said { Tells (said_frame (words rest.now)) result }
    ensures living { IfOk result HasLiving }
{
    let Some((mark, payload)) = two_words(rest) else {
        return Err(AuditFault::Refused(TraceRefusal::Arity));
    };
    let mark = read_mark(mark)?;
    let payload = read_payload(alloc, payload)?;
    Ok(TraceLine::Frame { mark, payload })
}

/// `put END VPI/VCI MARK`
fn put_line(rest: &[u8]) -> Result<TraceLine, TraceRefusal>
    ensures said { result ≡ said_put (words rest.now) }
    ensures living { IfOk result HasLiving }
{
    let Some((end, channel, mark)) = three_words(rest) else {
        return Err(TraceRefusal::Arity);
    };
    let end = read_end(end)?;
    let channel = read_channel(channel)?;
    let mark = read_mark(mark)?;
    let place = TraceLabel { end, channel };
    Ok(TraceLine::Put { place, mark })
}

/// `bind NODE PORT VPI/VCI HEX`
fn bind_line(alloc: Global, rest: &[u8]) -> Result<TraceLine, AuditFault>
    ensures said { Tells (said_bind (words rest.now)) result }
    ensures living { IfOk result HasLiving }
{
    let Some((name, port, channel, flow)) = four_words(rest) else {
        return Err(AuditFault::Refused(TraceRefusal::Arity));
    };
    let node = read_name(name)?;
    let port = read_port(port)?;
    let channel = read_label(channel)?;
    let flow = read_flow(alloc, flow)?;
    let label = TraceLabel {
        end: TraceEnd { node, port },
        channel,
    };
    Ok(TraceLine::Bind { label, flow })
}

/// `end`
fn end_line(rest: &[u8]) -> Result<TraceLine, TraceRefusal>
    ensures said { result ≡ said_end (words rest.now) }
    ensures living { IfOk result HasLiving }
{
    match split_word(rest) {
        None => Ok(TraceLine::End),
        Some(_) => Err(TraceRefusal::Arity),
    }
}

/// What is said behind a first word.
fn said_behind(alloc: Global, first: &[u8], rest: &[u8]) -> Result<TraceLine, AuditFault>
    ensures said { Tells (said first.now (words rest.now)) result }
    ensures living { IfOk result HasLiving }
{
    if first == "link".as_bytes() {
        Ok(link_line(rest)?)
    } else if first == "take".as_bytes() {
        Ok(take_line(rest)?)
    } else if first == "lost".as_bytes() {
        Ok(lost_line(rest)?)
    } else if first == "frame".as_bytes() {
        frame_line(alloc, rest)
    } else if first == "put".as_bytes() {
        Ok(put_line(rest)?)
    } else if first == "bind".as_bytes() {
        bind_line(alloc, rest)
    } else if first == "end".as_bytes() {
        Ok(end_line(rest)?)
    } else {
        Err(AuditFault::Refused(TraceRefusal::UnknownWord))
    }
}

/// What the text of a line says; `None` where it is blank: without words, or with a first word that
/// begins with `#`. Its refusals come in this order: `UnknownWord`, `Arity`, those of the forms of the
/// words from left to right.
pub fn read_text(alloc: Global, text: &[u8]) -> Result<Option<TraceLine>, AuditFault>
    ensures said { Tells (text_says text.now) result }
    ensures living { IfOk result (λ said. IfSome said HasLiving) }
    ensures some { IfOk result (λ said. IfSome said (λ _. 0 < length text.now)) }
{
    if is_blank_line(text) {
        return Ok(None);
    }
    let Some((first, rest)) = split_word(text) else {
        return Ok(None);
    };
    match said_behind(alloc, first, rest) {
        Ok(said) => Ok(Some(said)),
        Err(fault) => Err(fault),
    }
}
