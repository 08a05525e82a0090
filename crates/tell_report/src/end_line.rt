//! The last line of a report.

ghost use Rattle.std.specs.Prelude.{◌≡◌, ◌++◌, IfOk, OnOk, decimal};
ghost use Rattle.record_text.specs.script_model.Reports.{end_line, last_line_by};

use lab_text::Text;
use net_types::OutOfMemory;
use network_run::Ended;
use record_text::write_refused;
use std::alloc::Global;
use world::Counts;

/// Appends a number behind what it counts.
fn write_count(out: &mut Text, words: &str, count: u64) -> Result<(), OutOfMemory>
    ensures { OnOk result (out.new ≡ out.old ++ (words.now ++ decimal count)) }
{
    out.text(words)?;
    out.number(count)
}

/// Appends how many lines of the script were events, and the counts of its run.
fn write_end(out: &mut Text, event_lines: u32, counts: &Counts) -> Result<(), OutOfMemory>
    ensures { OnOk result (out.new ≡ out.old ++ end_line event_lines counts.now) }
{
    write_count(out, "end events ", u64::from(event_lines))?;
    write_count(out, " sent ", counts.sent)?;
    write_count(out, " delivered ", counts.delivered)?;
    write_count(out, " dropped ", counts.dropped)?;
    write_count(out, " refused ", counts.refused)?;
    write_count(out, " losses ", counts.losses)?;
    write_count(out, " redirects ", counts.redirects)?;
    write_count(out, " switched ", counts.switched)?;
    write_count(out, " chance ", counts.chance)?;
    out.text("\n")
}

/// How many lines of the script were events and the counts of their run, or what is refused.
pub fn last_line(alloc: Global, ended: Ended, counts: &Counts) -> Result<Text, OutOfMemory>
    ensures { IfOk result (λ line. line ≡ last_line_by (end_line ended.event_lines counts.now) ended.refused) }
{
    let mut line = Text::new(alloc);
    match ended.refused {
        None => write_end(&mut line, ended.event_lines, counts)?,
        Some(refused) => write_refused(&mut line, refused)?,
    }
    Ok(line)
}
