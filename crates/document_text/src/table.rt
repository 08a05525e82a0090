//! The lines that the table of a document holds.

ghost use Rattle.std.specs.Prelude.{◌≡◌, ◌++◌, codes, string_bytes, Some, true, is_some, IsSome, IfSome, IfOk, OnOk};
ghost use Rattle.std.specs.List.{list_all};
ghost use Rattle.std.specs.Option.{option_map, option_and_then};
ghost use Rattle.std.specs.BTreeMap.{keys};
ghost use Rattle.toml.specs.Data.{get_member};
ghost use Rattle.toml.specs.View.{view, items_view, table_view};
ghost use Rattle.script_model.specs.Documents.{strings, texts_at, count_at, has_keys_alone, is_key, lines_in};
ghost use Rattle.document_text.specs.Reading.{Reads};

use crate::fault::DocumentFault;
use crate::lines::{Lines, Texts};
use net_types::OutOfMemory;
use script_model::DocumentRefusal;
use std::alloc::Global;
use toml::{Table, Value};

/// A table isn't one of lines.
const TOML: DocumentFault = DocumentFault::Refused(DocumentRefusal::Toml);

fn is_key(key: &str) -> bool
    ensures { result ≡ is_key key.now }
{
    key == "rules" || key == "topology" || key == "events"
}

fn has_keys_alone(table: &Table) -> bool
    ensures { result ≡ list_all (λ key. is_key (string_bytes key)) (keys table.now) }
{
    table.keys().all(|key| is_key(key.as_str()))
}

fn are_strings(values: &[Value]) -> bool
    ensures { result ≡ is_some (strings (items_view values.now)) }
{
    for value in values {
        if value.as_str().is_none() {
            return false;
        }
    }
    true
}

/// Puts the texts of strings behind `texts`.
fn push_strings(texts: &mut Texts, values: &[Value]) -> Result<(), OutOfMemory>
    requires { IsSome (strings (items_view values.now)) }
    ensures { OnOk result (option_map (λ more. texts.old ++ more) (strings (items_view values.now)) ≡ Some texts.new) }
{
    for value in values {
        if let Some(text) = value.as_str() {
            texts.push(text)?;
        }
    }
    Ok(())
}

fn value_at<'a>(table: &'a Table, key: &str) -> Option<&'a Value>
    ensures { option_map (λ value. view value.now) result ≡ get_member key.now (table_view table.now) }
{
    table.get(key)
}

/// The strings of the array at a key, and no string where the key is missing; `None` where something else
/// than an array of strings is there.
fn strings_at<'a>(table: &'a Table, key: &str) -> Option<&'a [Value]>
    ensures texts { option_and_then (λ values. strings (items_view values.now)) result ≡ texts_at key.now (table_view table.now) }
    ensures strings { IfSome result (λ values. IsSome (strings (items_view values.now))) }
{
    let Some(value) = value_at(table, key) else {
        return Some(&[]);
    };
    let array = value.as_array()?;
    if are_strings(array) {
        Some(array)
    } else {
        None
    }
}

/// How many rules there are, where the table has that key: `texts` are those at it.
fn rule_count(table: &Table, texts: &Texts) -> Option<usize>
    requires { texts_at (codes "rules") (table_view table.now) ≡ Some texts.now }
    ensures { result ≡ count_at (codes "rules") (table_view table.now) }
{
    match value_at(table, "rules") {
        None => None,
        Some(_) => Some(texts.len()),
    }
}

/// The lines of a table that has no other key, where these are the strings at its three keys.
fn copied(
    alloc: Global,
    table: &Table,
    rules: &[Value],
    topology: &[Value],
    events: &[Value],
) -> Result<Lines, OutOfMemory>
    requires alone { has_keys_alone (table_view table.now) ≡ true }
    requires rules { strings (items_view rules.now) ≡ texts_at (codes "rules") (table_view table.now) }
    requires topology { strings (items_view topology.now) ≡ texts_at (codes "topology") (table_view table.now) }
    requires events { strings (items_view events.now) ≡ texts_at (codes "events") (table_view table.now) }
    requires some { IsSome (strings (items_view rules.now)) × IsSome (strings (items_view topology.now)) × IsSome (strings (items_view events.now)) }
    ensures { IfOk result (λ lines. lines_in (table_view table.now) ≡ Some lines) }
{
    let mut texts = Texts::new(alloc);
    push_strings(&mut texts, rules)?;
    let rules = rule_count(table, &texts);
    push_strings(&mut texts, topology)?;
    push_strings(&mut texts, events)?;
    Ok(Lines::new(texts, rules))
}

/// The lines of a table. Refuses `Toml` where it holds another key or something else than arrays of
/// strings, whether memory is left or not.
pub fn lines_in(alloc: Global, table: &Table) -> Result<Lines, DocumentFault>
    ensures { Reads (lines_in (table_view table.now)) result }
{
    if !has_keys_alone(table) {
        return Err(TOML);
    }
    let Some(rules) = strings_at(table, "rules") else {
        return Err(TOML);
    };
    let Some(topology) = strings_at(table, "topology") else {
        return Err(TOML);
    };
    let Some(events) = strings_at(table, "events") else {
        return Err(TOML);
    };
    match copied(alloc, table, rules, topology, events) {
        Ok(lines) => Ok(lines),
        Err(error) => Err(DocumentFault::OutOfMemory(error)),
    }
}
