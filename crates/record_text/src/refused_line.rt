//! The last line of a report whose script is refused: what is refused, and why.

ghost use Rattle.std.specs.Prelude.{◌≡◌, ◌++◌, ◌∷◌, [], OnOk, OnErr, codes, decimal};
ghost use Rattle.lab_text.specs.Kept.{BreaksOff};
ghost use Rattle.lab_text.specs.Text.{line_of};
ghost use Rattle.rule_model.specs.Names.{rule_refusal_name};
ghost use Rattle.script_model.specs.Names.{refusal_name, document_refusal_name};
ghost use Rattle.script_model.specs.Reports.{refused_line};

use lab_text::Text;
use net_types::OutOfMemory;
use rule_model::RuleRefusal;
use script_model::{DocumentRefusal, LineRefusal, Refused};

fn refusal_name(refusal: LineRefusal) -> &'static str
    ensures { result.now ≡ refusal_name refusal }
{
    match refusal {
        LineRefusal::ScriptTooLong => "ScriptTooLong",
        LineRefusal::LineTooLong => "LineTooLong",
        LineRefusal::BadByte => "BadByte",
        LineRefusal::UnknownWord => "UnknownWord",
        LineRefusal::Arity => "Arity",
        LineRefusal::BadName => "BadName",
        LineRefusal::BadNumber => "BadNumber",
        LineRefusal::BadAddress => "BadAddress",
        LineRefusal::BadPrefix => "BadPrefix",
        LineRefusal::BadPlace => "BadPlace",
        LineRefusal::BadChannel => "BadChannel",
        LineRefusal::BadHex => "BadHex",
        LineRefusal::BadLength => "BadLength",
        LineRefusal::Late => "Late",
        LineRefusal::DuplicateName => "DuplicateName",
        LineRefusal::UnknownName => "UnknownName",
        LineRefusal::SelfLink => "SelfLink",
        LineRefusal::PortTaken => "PortTaken",
        LineRefusal::NoLink => "NoLink",
        LineRefusal::Duplicate => "Duplicate",
        LineRefusal::TableFull => "TableFull",
        LineRefusal::NoPrefix => "NoPrefix",
        LineRefusal::TooMany => "TooMany",
    }
}

fn document_refusal_name(refusal: DocumentRefusal) -> &'static str
    ensures { result.now ≡ document_refusal_name refusal }
{
    match refusal {
        DocumentRefusal::ScriptTooLong => "ScriptTooLong",
        DocumentRefusal::Toml => "Toml",
    }
}

/// A rule that is refused as a line can be has the same name for it.
fn rule_refusal_name(refusal: RuleRefusal) -> &'static str
    ensures { result.now ≡ rule_refusal_name refusal }
{
    match refusal {
        RuleRefusal::LineTooLong => refusal_name(LineRefusal::LineTooLong),
        RuleRefusal::BadByte => refusal_name(LineRefusal::BadByte),
        RuleRefusal::UnknownWord => refusal_name(LineRefusal::UnknownWord),
        RuleRefusal::Arity => refusal_name(LineRefusal::Arity),
        RuleRefusal::BadPrefix => refusal_name(LineRefusal::BadPrefix),
        RuleRefusal::BadPorts => "BadPorts",
        RuleRefusal::BadNumber => refusal_name(LineRefusal::BadNumber),
        RuleRefusal::TooManyRules => "TooManyRules",
    }
}

/// Writes `refused`, a number, and the name of a refusal.
fn write_number_and_name(out: &mut Text, number: u64, name: &str) -> Result<(), OutOfMemory>
    ensures ok { OnOk result (out.new ≡ out.old ++ line_of (codes "refused" ∷ decimal number ∷ name.now ∷ [])) }
    ensures err { OnErr result (BreaksOff out.old (out.old ++ line_of (codes "refused" ∷ decimal number ∷ name.now ∷ [])) out.new) }
{
    out.text("refused ")?;
    out.number(number)?;
    out.text(" ")?;
    out.text(name)?;
    out.text("\n")
}

/// Writes `refused`, the number of the first refused line, and the name of its refusal; or `refused 0`
/// and why the document is refused as a whole.
pub fn write_refused(out: &mut Text, refused: Refused) -> Result<(), OutOfMemory>
    ensures ok { OnOk result (out.new ≡ out.old ++ refused_line refused) }
    ensures err { OnErr result (BreaksOff out.old (out.old ++ refused_line refused) out.new) }
{
    match refused {
        Refused::Line { number, name } => {
            write_number_and_name(out, u64::from(number), refusal_name(name))
        }
        Refused::Rule { number, name } => {
            write_number_and_name(out, number as u64, rule_refusal_name(name))
        }
        Refused::Document(name) => write_number_and_name(out, 0, document_refusal_name(name)),
    }
}
