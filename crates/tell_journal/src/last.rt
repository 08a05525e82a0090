//! The last line.

ghost use Rattle.std.specs.Prelude.{◌≡◌, IfOk};
ghost use Rattle.tell_journal.specs.Json.{json_line};
ghost use Rattle.tell_journal.specs.Journal.{last_name, last_value};

use crate::json::write_line;
use lab_text::Text;
use net_types::OutOfMemory;
use script_model::Refused;
use std::alloc::Global;
use tell_report::last_line;
use telling_model::Ended;
use world::Counts;

fn last_name(refused: Option<Refused>) -> &'static str
    ensures { result.now ≡ last_name refused }
{
    match refused {
        None => "end",
        Some(_) => "refused",
    }
}

/// The last line: how many lines of the script were events and the counts of their run, or what is
/// refused.
pub(crate) fn end_line(alloc: Global, ended: Ended, counts: &Counts) -> Result<Text, OutOfMemory>
    ensures { IfOk result (λ line. line ≡ json_line (last_value ended.event_lines counts.now ended.refused)) }
{
    let mut line = Text::new(alloc);
    line.text("{\"")?;
    line.text(last_name(ended.refused))?;
    line.text("\":")?;
    let report_line = last_line(alloc, ended, counts)?;
    write_line(&mut line, report_line.as_slice())?;
    line.text("}\n")?;
    Ok(line)
}
