//! The lines, one by one.

ghost use Rattle.std.specs.Prelude.{◌≡◌, IfOk};
ghost use Rattle.script_model.specs.Documents.{rules_read};

use crate::rules_read::RulesRead;
use document_text::Lines;
use net_types::OutOfMemory;
use std::alloc::Global;

/// Reads the rules of a document, up to the first that is refused.
pub fn read_rules(alloc: Global, lines: &Lines) -> Result<RulesRead, OutOfMemory>
    ensures { IfOk result (λ read. read ≡ rules_read lines.now) }
{
    let mut read = RulesRead::open(alloc)?;
    for place in 0..lines.rule_len() {
        let Some(text) = lines.at(place) else {
            return Ok(read);
        };
        if !read.take(place + 1, text)? {
            return Ok(read);
        }
    }
    Ok(read)
}
