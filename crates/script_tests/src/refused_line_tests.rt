//! The words by which a report names what is refused, as the languages of scripts, documents and rules have
//! them.

use lab_text::Text;
use net_types::OutOfMemory;
use record_text::write_refused;
use rule_model::RuleRefusal;
use script_model::{DocumentRefusal, Refused};
use script_text::LineRefusal;
use std::alloc::Global;
use std::process::Abort;

/// Why a line is refused, in the order of the tests.
const LINES: [(LineRefusal, &str); 23] = [
    (LineRefusal::ScriptTooLong, "ScriptTooLong"),
    (LineRefusal::LineTooLong, "LineTooLong"),
    (LineRefusal::BadByte, "BadByte"),
    (LineRefusal::UnknownWord, "UnknownWord"),
    (LineRefusal::Arity, "Arity"),
    (LineRefusal::BadName, "BadName"),
    (LineRefusal::BadNumber, "BadNumber"),
    (LineRefusal::BadAddress, "BadAddress"),
    (LineRefusal::BadPrefix, "BadPrefix"),
    (LineRefusal::BadPlace, "BadPlace"),
    (LineRefusal::BadChannel, "BadChannel"),
    (LineRefusal::BadHex, "BadHex"),
    (LineRefusal::BadLength, "BadLength"),
    (LineRefusal::Late, "Late"),
    (LineRefusal::DuplicateName, "DuplicateName"),
    (LineRefusal::UnknownName, "UnknownName"),
    (LineRefusal::SelfLink, "SelfLink"),
    (LineRefusal::PortTaken, "PortTaken"),
    (LineRefusal::NoLink, "NoLink"),
    (LineRefusal::Duplicate, "Duplicate"),
    (LineRefusal::TableFull, "TableFull"),
    (LineRefusal::NoPrefix, "NoPrefix"),
    (LineRefusal::TooMany, "TooMany"),
];

/// Why a document is refused as a whole.
const DOCUMENTS: [(DocumentRefusal, &str); 2] = [
    (DocumentRefusal::ScriptTooLong, "ScriptTooLong"),
    (DocumentRefusal::Toml, "Toml"),
];

/// Why a line of rules is refused, in the order of the tests.
const RULES: [(RuleRefusal, &str); 8] = [
    (RuleRefusal::LineTooLong, "LineTooLong"),
    (RuleRefusal::BadByte, "BadByte"),
    (RuleRefusal::UnknownWord, "UnknownWord"),
    (RuleRefusal::Arity, "Arity"),
    (RuleRefusal::BadPrefix, "BadPrefix"),
    (RuleRefusal::BadPorts, "BadPorts"),
    (RuleRefusal::BadNumber, "BadNumber"),
    (RuleRefusal::TooManyRules, "TooManyRules"),
];

/// What is refused is told as `refused`, this number and this name, and an LF.
fn assert_told(
    rt: &impl Abort,
    alloc: Global,
    refused: Refused,
    number: u32,
    name: &str,
) -> Result<(), OutOfMemory> {
    let mut out = Text::new(alloc);
    write_refused(&mut out, refused)?;
    let line = format!(in alloc; "refused {number} {name}\n")?;
    assert!(rt; out.as_slice() == line.as_bytes(), "{line}");
    Ok(())
}

#[test]
fn refused_lines_are_told_by_name(rt: HostRuntime) -> Result<(), OutOfMemory> {
    for &(name, text) in &LINES {
        let refused = Refused::Line { number: 17, name };
        assert_told(&rt, rt.alloc(), refused, 17, text)?;
    }
    Ok(())
}

#[test]
fn refused_documents_are_told_by_name(rt: HostRuntime) -> Result<(), OutOfMemory> {
    for &(name, text) in &DOCUMENTS {
        let refused = Refused::Document(name);
        assert_told(&rt, rt.alloc(), refused, 0, text)?;
    }
    Ok(())
}

#[test]
fn refused_rules_are_told_by_name(rt: HostRuntime) -> Result<(), OutOfMemory> {
    for &(name, text) in &RULES {
        let refused = Refused::Rule { number: 3, name };
        assert_told(&rt, rt.alloc(), refused, 3, text)?;
    }
    Ok(())
}
