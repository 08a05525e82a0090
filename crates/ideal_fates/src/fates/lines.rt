//! From a script to its report.

ghost use Rattle.std.specs.Prelude.{◌≡◌, ◌+◌, ◌≤◌, ◌++◌, length, is_some, IfOk, OnOk};
ghost use Rattle.lab_text.specs.Lines.{lines_of};
ghost use Rattle.script_model.specs.Ideal.{ideal_report};
ghost use Rattle.script_model.specs.Limits.{input_limit};
ghost use Rattle.script_model.specs.Reading.{line_says};
ghost use Rattle.script_model.specs.Script.{script_from, script_of};
ghost use Rattle.ideal_fates.specs.Told.{rest_of, last_told, Follows};

use super::Fates;
use lab_text::{Text, split_line};
use net_types::{Octets, OutOfMemory};
use record_text::write_refused;
use script_model::Refused;
use script_text::{ReadFault, ScriptState, read_line};
use std::alloc::Global;

/// A report with its outcome: its octets, and whether a line of its script was refused.
#[derive(Debug, Drop)]
pub struct Reported {
    /// Its octets.
    pub report: Octets,
    /// Whether its last line names a refused line.
    pub is_refused: bool,
}

/// Reads the lines of a text behind those before and writes the fates of their packets; the first
/// refused line ends the reading.
fn read_lines(
    octets: &[u8],
    state: &mut ScriptState,
    fates: &mut Fates,
    out: &mut Text,
) -> Result<Option<Refused>, OutOfMemory>
    requires follows { Follows state.old fates.old }
    requires room { state.old.octets + length octets.now ≤ input_limit }
    requires lines { state.old.lines ≤ state.old.octets }
    ensures report { IfOk result (λ refused. out.new ++ last_told fates.new refused ≡ out.old ++ rest_of fates.old (script_from line_says state.old (lines_of octets.now))) }
    ensures refused { IfOk result (λ refused. refused ≡ (script_from line_says state.old (lines_of octets.now)).refused) }
{
    let mut rest = octets;
    while !rest.is_empty() {
        let (line, others) = split_line(rest);
        match read_line(state, line) {
            Ok(said) => fates.take(state.topology(), said, out)?,
            Err(ReadFault::Refused(name)) => {
                let number = state.lines();
                return Ok(Some(Refused::Line { number, name }));
            }
            Err(ReadFault::OutOfMemory(error)) => return Err(error),
        }
        rest = others;
    }
    Ok(None)
}

/// Writes the last line: how many packets had which fate, or what was refused.
fn write_last(out: &mut Text, fates: &Fates, refused: Option<Refused>) -> Result<(), OutOfMemory>
    ensures { OnOk result (out.new ≡ out.old ++ last_told fates.now refused) }
{
    match refused {
        None => fates.write_end(out),
        Some(refused) => write_refused(out, refused),
    }
}

/// What routing alone makes of the packets of a script: a line for each, in order, over the tables as
/// the route lines before it set them, and a last line that counts them or names the refused line.
pub fn ideal(alloc: Global, octets: &[u8]) -> Result<Reported, OutOfMemory>
    requires { length octets.now ≤ input_limit }
    ensures report { IfOk result (λ reported. reported.report ≡ ideal_report octets.now) }
    ensures refused { IfOk result (λ reported. reported.is_refused ≡ is_some (script_of octets.now).refused) }
{
    let mut state = ScriptState::new(alloc)?;
    let mut fates = Fates::new(alloc);
    let mut out = Text::new(alloc);
    let refused = read_lines(octets, &mut state, &mut fates, &mut out)?;
    let is_refused = refused.is_some();
    write_last(&mut out, &fates, refused)?;
    Ok(Reported {
        report: out.into_octets(),
        is_refused,
    })
}
