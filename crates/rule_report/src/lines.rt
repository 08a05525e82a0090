//! The lines of rules.

ghost use Rattle.std.specs.Prelude.{◌≡◌, ◌++◌, ◌<◌, ◌≤◌, flat_map, length, is_some, IfOk, OnOk};
ghost use Rattle.rule_model.specs.Covering.{covered};
ghost use Rattle.script_model.specs.Judgement.{covered_count, judgement, judgement_end, rule_places, rule_line};

use document_rules::RulesRead;
use lab_text::Text;
use net_types::OutOfMemory;
use record_text::write_refused;

/// Writes the line of the rule at an index, and tells whether an earlier one covers it.
fn write_rule(out: &mut Text, read: &RulesRead, place: usize) -> Result<bool, OutOfMemory>
    requires { place < length read.now.rules }
    ensures written { OnOk result (out.new ≡ out.old ++ rule_line read.now place) }
    ensures covered { IfOk result (λ told. told ≡ is_some (covered read.now.rules place)) }
{
    let cover = read.rules().covered(place);
    out.text("rule ")?;
    out.number(read.number(place) as u64)?;
    if let Some(earlier) = cover {
        out.text(" covered ")?;
        out.number(read.number(earlier) as u64)?;
    }
    out.text("\n")?;
    Ok(cover.is_some())
}

/// Writes the line of each rule, and counts those that are covered.
fn write_rules(out: &mut Text, read: &RulesRead) -> Result<usize, OutOfMemory>
    ensures written { OnOk result (out.new ≡ out.old ++ flat_map (rule_line read.now) (rule_places read.now)) }
    ensures count { IfOk result (λ count. count ≡ covered_count read.now) }
{
    let mut count = 0;
    for place in 0..read.rules().len() {
        if write_rule(out, read, place)? {
            count += 1;
        }
    }
    Ok(count)
}

/// Writes how many rules there are, and how many of them are covered.
fn write_end(out: &mut Text, read: &RulesRead, count: usize) -> Result<(), OutOfMemory>
    requires { count ≡ covered_count read.now }
    ensures { OnOk result (out.new ≡ out.old ++ judgement_end read.now) }
{
    out.text("end rules ")?;
    out.number(read.rules().len() as u64)?;
    out.text(" covered ")?;
    out.number(count as u64)?;
    out.text("\n")
}

/// Writes the judgement of rules that were read.
pub fn write_judgement(out: &mut Text, read: &RulesRead) -> Result<(), OutOfMemory>
    ensures { OnOk result (out.new ≡ out.old ++ judgement read.now) }
{
    let count = write_rules(out, read)?;
    match read.refused() {
        None => write_end(out, read, count),
        Some(refused) => write_refused(out, refused),
    }
}
