//! The lines of a document's script, one by one.

ghost use Rattle.std.specs.Prelude.{◌≡◌, option_map, IfOk, OnErr, OnOk};
ghost use Rattle.lab_io.specs.Fault.{count_after};
ghost use Rattle.lab_io.specs.Puts.{Puts, StaysWithin, is_failed};
ghost use Rattle.network_replay.specs.Along.{IsBegun, IsMetered};
ghost use Rattle.script_model.specs.Documents.{numbered_behind, script_texts};
ghost use Rattle.script_replay.specs.DocumentLines.{Comes, meter_by, placed_of_lines, report_by, script_behind_rules, script_of_lines};

use document_text::Lines;
use lab_io::{Sink, Stop};
use net_types::OutOfMemory;
use network_replay::{LineForm, PolicyChoice, Replay};
use network_run::Told;
use script_model::Refused;
use std::alloc::AllocError;
use tell_report::ReportLines;
use world::{Meter, NodeController};

/// Takes the lines, up to the first that is refused, which is told. More lines or octets than 32 bits
/// count are want of memory.
fn take_lines<C: NodeController, N: PolicyChoice<C>, K: Sink>(
    replay: &mut Replay<C>,
    lines: &Lines,
    choice: &N,
    told: &mut Told<ReportLines>,
    sink: &mut K,
    meter: &mut Meter,
) -> Result<Option<Refused>, Stop>
    requires begun { IsBegun replay.old }
    ensures comes { Comes C.seen (N.chosen choice.now) told.old.writer (K.written sink.old) meter.old (script_of_lines (script_texts lines.now)) (placed_of_lines (script_texts lines.now)) result replay.new told.new.writer (K.written sink.new) meter.new }
    ensures kept { OnErr result (IsMetered (N.chosen choice.now) meter.old (script_of_lines (script_texts lines.now)) meter.new) }
    ensures room { StaysWithin told.old.writer told.new.writer }
    ensures faults { K.faults sink.new ≡ count_after (is_failed result) (K.faults sink.old) }
{
    for place in 0..lines.script_len() {
        let Some(text) = lines.script_at(place) else {
            return Ok(None);
        };
        if !replay.has_room(text) {
            return Err(Stop::OutOfMemory(OutOfMemory::from(AllocError)));
        }
        if let Some(refused) = replay.line(LineForm::Document, text, choice, told, sink, meter)? {
            return Ok(Some(refused));
        }
    }
    Ok(None)
}

/// A line of a script is numbered behind so many others. More lines than 32 bits count are want of
/// memory.
fn numbered_behind(count: usize, refused: Option<Refused>) -> Result<Option<Refused>, OutOfMemory>
    ensures { IfOk result (λ told. told ≡ option_map (numbered_behind count) refused) }
{
    let Some(Refused::Line { number, name }) = refused else {
        return Ok(refused);
    };
    if count > (u32::MAX - number) as usize {
        return Err(OutOfMemory::from(AllocError));
    }
    let number = count as u32 + number;
    Ok(Some(Refused::Line { number, name }))
}

/// Puts the report of the script that the lines behind the rules are, and tells which of them is refused.
pub fn put_report<C: NodeController, N: PolicyChoice<C>, K: Sink>(
    replay: &mut Replay<C>,
    lines: &Lines,
    choice: &N,
    told: &mut Told<ReportLines>,
    sink: &mut K,
    meter: &mut Meter,
) -> Result<Option<Refused>, Stop>
    requires begun { IsBegun replay.old }
    ensures put { Puts result told.old.writer told.new.writer (K.written sink.old) (K.written sink.new) (report_by (N.chosen choice.now) (script_behind_rules lines.now)) }
    ensures refused { IfOk result (λ refused. (script_behind_rules lines.now).refused ≡ refused) }
    ensures meter { OnOk result (meter.new ≡ meter_by (N.chosen choice.now) meter.old (script_behind_rules lines.now)) }
    ensures metered { IsMetered (N.chosen choice.now) meter.old (script_behind_rules lines.now) meter.new }
    ensures faults { K.faults sink.new ≡ count_after (is_failed result) (K.faults sink.old) }
{
    let found = take_lines(replay, lines, choice, told, sink, meter)?;
    let refused = numbered_behind(lines.rule_len(), found)?;
    replay.end(refused, choice, told, sink)?;
    Ok(refused)
}
