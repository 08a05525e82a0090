//! The lines of a drill, one by one.

ghost use Rattle.std.specs.Prelude.{◌≡◌, false, List, IfOk, OnOk};
ghost use Rattle.lab_io.specs.Puts.{is_failed};
ghost use Rattle.network_replay.specs.Along.{IsBegun, IsMetered, IsWhole};
ghost use Rattle.script_model.specs.Drill.{drill_script};
ghost use Rattle.telling_model.specs.Placed.{Placed};
ghost use Rattle.script_replay.specs.Drill.{meter_by};

use drill_script::DrillLines;
use lab_io::{ReportWriter, Stop, SureSink};
use lab_text::Text;
use network_replay::{LineForm, PolicyChoice, Replay};
use network_run::{PlainTeller, Silence, Told};
use script_model::Refused;
use std::alloc::Global;
use world::{Meter, NodeController};

/// So many octets are held at most: none is told.
const ROOM: usize = 1;

/// Takes the lines of a drill, up to the first that is refused, which is told; of their events nothing is.
/// Whatever the result, the meter is at one of them, or as it was before the first.
pub fn take_lines<C: NodeController, N: PolicyChoice<C>>(
    alloc: Global,
    replay: &mut Replay<C>,
    drill: u32,
    choice: &N,
    meter: &mut Meter,
) -> Result<Option<Refused>, Stop>
    requires begun { IsBegun replay.old }
    ensures whole { IfOk result (λ refused. (placed : List Placed) × IsWhole C.seen (N.chosen choice.now) (drill_script drill) placed refused replay.new) }
    ensures meter { OnOk result (meter.new ≡ meter_by (N.chosen choice.now) meter.old (drill_script drill)) }
    ensures metered { IsMetered (N.chosen choice.now) meter.old (drill_script drill) meter.new }
    ensures memory { is_failed result ≡ false }
{
    let mut nowhere = SureSink::new();
    let writer = ReportWriter::open(alloc, ROOM)?;
    let teller = PlainTeller::new(Silence, Silence);
    let mut told = Told { teller, writer };
    let mut lines = DrillLines::new(drill);
    loop {
        let mut line = Text::new(alloc);
        if !lines.next(&mut line)? {
            return Ok(None);
        }
        let text = line.as_slice();
        if let Some(refused) = replay.line(
            LineForm::Script,
            text,
            choice,
            &mut told,
            &mut nowhere,
            meter,
        )? {
            return Ok(Some(refused));
        }
    }
}
