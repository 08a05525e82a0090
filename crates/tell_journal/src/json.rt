//! Parts of values of JSON.

ghost use Rattle.std.specs.Prelude.{◌≡◌, ◌++◌, ℕ, List, OnOk};
ghost use Rattle.lab_text.specs.Text.{line_of};
ghost use Rattle.tell_journal.specs.Json.{comma, string};
ghost use Rattle.tell_journal.specs.Journal.{spaced};

use lab_text::Text;
use net_types::OutOfMemory;

/// Appends what stands in front of the value of an array at `index`, from 0: a comma, but for the first.
pub(crate) fn write_comma(out: &mut Text, index: usize) -> Result<(), OutOfMemory>
    ensures { OnOk result (out.new ≡ out.old ++ comma index) }
{
    if index > 0 {
        out.text(",")?;
    }
    Ok(())
}

/// Appends a line as a string, without its LF.
pub(crate) fn write_line(out: &mut Text, line: &[u8]) -> Result<(), OutOfMemory>
    ensures { (words : List (List ℕ)) → line.now ≡ line_of words → OnOk result (out.new ≡ out.old ++ string (spaced words)) }
{
    out.text("\"")?;
    out.octets(&line[..line.len().saturating_sub(1)])?;
    out.text("\"")
}
