//! From a document to its judgement.

ghost use Rattle.std.specs.Prelude.{◌≡◌, is_some, IfOk, IsTrue};
ghost use Rattle.script_model.specs.declared.refusal.Refused.TheVariants.{Document};
ghost use Rattle.script_model.specs.Documents.{rule_refused, rules_read};
ghost use Rattle.script_model.specs.Judgement.{judgement, rules_refused, rules_report};
ghost use Rattle.script_model.specs.Reports.{refused_line};

use crate::lines::write_judgement;
use document_rules::read_rules;
use document_text::{DocumentFault, DocumentRefusal, Lines, read_document};
use lab_text::Text;
use net_types::{Octets, OutOfMemory};
use record_text::write_refused;
use script_model::Refused;
use std::alloc::Global;

/// A report on an access list: what is told of a document's rules, and whether something is
/// refused. This project's own.
#[derive(Debug, Drop)]
pub struct Judgement {
    /// Its octets.
    pub report: Octets,
    /// Whether its last line names a refused line, or says why the document is refused as a whole.
    pub is_refused: bool,
}

/// Judges the rules among the lines of a document.
fn judge_lines(alloc: Global, lines: &Lines) -> Result<Judgement, OutOfMemory>
    ensures report { IfOk result (λ told. told.report ≡ judgement (rules_read lines.now)) }
    ensures refused { IfOk result (λ told. told.is_refused ≡ is_some (rule_refused (rules_read lines.now))) }
{
    let read = read_rules(alloc, lines)?;
    let mut out = Text::new(alloc);
    write_judgement(&mut out, &read)?;
    Ok(Judgement {
        report: out.into_octets(),
        is_refused: read.refused().is_some(),
    })
}

/// Says why a document is refused as a whole.
fn refuse(alloc: Global, name: DocumentRefusal) -> Result<Judgement, OutOfMemory>
    ensures report { IfOk result (λ told. told.report ≡ refused_line (Document name)) }
    ensures refused { IfOk result (λ told. IsTrue told.is_refused) }
{
    let mut out = Text::new(alloc);
    write_refused(&mut out, Refused::Document(name))?;
    Ok(Judgement {
        report: out.into_octets(),
        is_refused: true,
    })
}

/// Judges the rules of a document: `rule N` for each of them, N the number of its line, or
/// `rule N covered M` where an earlier rule covers it, the first of them that of line M; then
/// `end rules R covered C`. A refused rule ends it by `refused N NAME`, and a document that is refused as
/// a whole has the one line `refused 0 NAME`. The lines of `topology` and `events` aren't read.
pub fn judge_rules(alloc: Global, octets: &[u8]) -> Result<Judgement, OutOfMemory>
    ensures report { IfOk result (λ told. told.report ≡ rules_report octets.now) }
    ensures refused { IfOk result (λ told. told.is_refused ≡ is_some (rules_refused octets.now)) }
{
    match read_document(alloc, octets) {
        Ok(lines) => judge_lines(alloc, &lines),
        Err(DocumentFault::Refused(name)) => refuse(alloc, name),
        Err(DocumentFault::OutOfMemory(error)) => Err(error),
    }
}
