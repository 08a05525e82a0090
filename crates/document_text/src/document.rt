//! Reading a document.

ghost use Rattle.std.specs.Prelude.{◌≡◌, ◌≤◌, ◌↔◌, Err, length};
ghost use Rattle.toml.specs.View.{table_view};
ghost use Rattle.toml.specs.Errors.{IsMemory};
ghost use Rattle.script_model.specs.Limits.{input_limit};
ghost use Rattle.script_model.specs.Documents.{document_lines, document_of};
ghost use Rattle.document_text.specs.Reading.{IsRead, IsTold, ReadsAs, members_of};

use crate::fault::DocumentFault;
use crate::lines::Lines;
use crate::table::lines_in;
use lab_text::INPUT_LIMIT;
use net_types::OutOfMemory;
use script_model::DocumentRefusal;
use std::alloc::Global;
use toml::Table;
use toml::de::Error;

/// Why `toml` gives no table: a refusal, or what its allocator answered.
fn table_fault(error: &Error) -> DocumentFault
    ensures { IsTold (IsMemory error.now) result }
{
    if error.is_memory() {
        DocumentFault::OutOfMemory(OutOfMemory::told_by_library())
    } else {
        DocumentFault::Refused(DocumentRefusal::Toml)
    }
}

/// The table of a document.
fn table_of(alloc: Global, octets: &[u8]) -> Result<Table, DocumentFault>
    ensures { ReadsAs table_view (members_of octets.now) result }
{
    match toml::table_from_slice(alloc, octets) {
        Ok(table) => Ok(table),
        Err(error) => Err(table_fault(&error)),
    }
}

/// The lines of a document of any length.
fn read_lines(alloc: Global, octets: &[u8]) -> Result<Lines, DocumentFault>
    ensures { ReadsAs (λ lines. lines) (document_lines octets.now) result }
{
    match table_of(alloc, octets) {
        Ok(table) => lines_in(alloc, &table),
        Err(fault) => Err(fault),
    }
}

/// Reads a document, `octets` in UTF-8, whose table has at most the keys `rules`, `topology` and `events`,
/// each an array of strings: lines without their ends, in this order. Refuses `ScriptTooLong` exactly where
/// it has more than 16,777,216 octets, and then `Toml` where it is no such document. Want of memory is what
/// `toml` says, which may say it of any other octets, or comes where the document's lines are to be copied.
pub fn read_document(alloc: Global, octets: &[u8]) -> Result<Lines, DocumentFault>
    ensures read { IsRead (document_of octets.now) result }
    ensures script_too_long { (result ≡ Err (DocumentFault.Refused DocumentRefusal.ScriptTooLong)) ↔ (input_limit ≤ length octets.now) }
{
    if INPUT_LIMIT <= octets.len() {
        return Err(DocumentFault::Refused(DocumentRefusal::ScriptTooLong));
    }
    read_lines(alloc, octets)
}
