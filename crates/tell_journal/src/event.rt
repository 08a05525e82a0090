//! An event as a value of JSON.

ghost use Rattle.std.specs.Prelude.{◌≡◌, ◌++◌, OnOk, codes, decimal, drop, map, slice_get, Some};
ghost use Rattle.link_model.specs.declared.frames.Frame.{Frame};
ghost use Rattle.script_model.specs.Writing.{event_words};
ghost use Rattle.tell_journal.specs.Json.{array, string};
ghost use Rattle.tell_journal.specs.Journal.{cell_value, frame_value, record_value, spaced, taken_value};

use crate::cells::{write_put, write_taken};
use crate::json::{write_comma, write_line};
use frame_words::write_frame;
use lab_text::Text;
use line_text::write_event;
use link_model::{Notes, Record};
use net_types::{Mark, OutOfMemory};
use network_run::Context;
use record_text::{write_mark, write_record};
use std::alloc::Global;
use tell_passing::Before;
use telling_model::Standing;
use topology::Topology;
use world_model::Event;

/// Appends an event as a string: its line without its end.
fn write_words(
    alloc: Global,
    out: &mut Text,
    names: &Topology,
    event: &Event,
) -> Result<(), OutOfMemory>
    ensures { OnOk result (out.new ≡ out.old ++ string (spaced (event_words names.now event.now))) }
{
    let mut line = Text::new(alloc);
    write_event(&mut line, names, event)?;
    write_line(out, line.as_slice())
}

/// Appends the number of an event, that of its line, and the event.
pub(crate) fn write_front(
    alloc: Global,
    out: &mut Text,
    context: &Context<'_>,
    number: u64,
    event: &Event,
) -> Result<(), OutOfMemory>
    ensures { OnOk result (out.new ≡ out.old ++ (codes "{\"event\":" ++ (decimal number ++ (codes ",\"line\":" ++ (decimal context.now.line ++ (codes ",\"do\":" ++ string (spaced (event_words context.now.names.now event.now)))))))) }
{
    out.text("{\"event\":")?;
    out.number(number)?;
    out.text(",\"line\":")?;
    out.number(u64::from(context.line))?;
    out.text(",\"do\":")?;
    write_words(alloc, out, context.names, event)
}

fn write_made(out: &mut Text, mark: Mark, payload: &[u8]) -> Result<(), OutOfMemory>
    ensures { OnOk result (out.new ≡ out.old ++ frame_value (record { mark = mark; payload = payload.now })) }
{
    out.text("{\"mark\":\"")?;
    write_mark(out, mark)?;
    out.text("\",\"text\":\"")?;
    write_frame(out, payload)?;
    out.text("\"}")
}

/// Appends the frame that an event made at this index, from 0.
fn write_made_at(
    out: &mut Text,
    before: &Before,
    notes: &Notes,
    place: usize,
) -> Result<(), OutOfMemory>
    ensures { (frame : Frame) → slice_get (drop before.now.made notes.now.frames) place ≡ Some frame → OnOk result (out.new ≡ out.old ++ frame_value frame) }
{
    match before.made_at(notes, place) {
        Some(frame) => write_made(out, frame.mark, frame.payload.as_slice()),
        None => Ok(()),
    }
}

/// Appends the frames that an event made. `before` is the look before it, `notes` are those behind it.
fn write_frames(out: &mut Text, before: &Before, notes: &Notes) -> Result<(), OutOfMemory>
    ensures { OnOk result (out.new ≡ out.old ++ array (map frame_value (drop before.now.made notes.now.frames))) }
{
    out.text("[")?;
    for place in 0..before.made(notes) {
        write_comma(out, place)?;
        write_made_at(out, before, notes, place)?;
    }
    out.text("]")
}

fn write_record_value(
    alloc: Global,
    out: &mut Text,
    names: &Topology,
    item: &Record,
) -> Result<(), OutOfMemory>
    ensures { OnOk result (out.new ≡ out.old ++ record_value names.now item.now) }
{
    let mut line = Text::new(alloc);
    write_record(item, names, &mut line)?;
    write_line(out, line.as_slice())
}

/// Appends records, each as its line without the line's end.
fn write_records(
    alloc: Global,
    out: &mut Text,
    names: &Topology,
    records: &[Record],
) -> Result<(), OutOfMemory>
    ensures { OnOk result (out.new ≡ out.old ++ array (map (record_value names.now) records.now)) }
{
    out.text("[")?;
    for (index, item) in records.iter().enumerate() {
        write_comma(out, index)?;
        write_record_value(alloc, out, names, item)?;
    }
    out.text("]")
}

/// Appends what an event took and which frames it made. `before` is the look before it, `notes` are
/// those behind it.
pub(crate) fn write_taken_and_made(
    out: &mut Text,
    names: &Topology,
    before: &Before,
    notes: &Notes,
) -> Result<(), OutOfMemory>
    ensures { OnOk result (out.new ≡ out.old ++ (codes ",\"took\":" ++ (taken_value names.now before.now.taken ++ (codes ",\"frames\":" ++ array (map frame_value (drop before.now.made notes.now.frames)))))) }
{
    out.text(",\"took\":")?;
    write_taken(out, names, &before.taken())?;
    out.text(",\"frames\":")?;
    write_frames(out, before, notes)
}

/// Appends what an event put and its records, and the end of its line.
pub(crate) fn write_put_and_records(
    alloc: Global,
    out: &mut Text,
    names: &Topology,
    put: &[Standing],
    records: &[Record],
) -> Result<(), OutOfMemory>
    ensures { OnOk result (out.new ≡ out.old ++ (codes ",\"put\":" ++ (array (map (cell_value names.now) put.now) ++ (codes ",\"says\":" ++ (array (map (record_value names.now) records.now) ++ codes "}\n"))))) }
{
    out.text(",\"put\":")?;
    write_put(out, names, put)?;
    out.text(",\"says\":")?;
    write_records(alloc, out, names, records)?;
    out.text("}\n")
}
