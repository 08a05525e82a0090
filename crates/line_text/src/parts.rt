//! What many lines begin with.

ghost use Rattle.std.specs.Prelude.{◌≡◌, ◌++◌, OnOk, OnErr, codes};
ghost use Rattle.lab_text.specs.Kept.{BreaksOff};

use lab_text::Text;
use net_types::OutOfMemory;

/// Appends a first word, a space, a name and what stands behind it.
pub(crate) fn write_named(
    out: &mut Text,
    word: &str,
    name: &[u8],
    behind: &str,
) -> Result<(), OutOfMemory>
    ensures ok { OnOk result (out.new ≡ out.old ++ (word.now ++ (codes " " ++ (name.now ++ behind.now)))) }
    ensures err { OnErr result (BreaksOff out.old (out.old ++ (word.now ++ (codes " " ++ (name.now ++ behind.now)))) out.new) }
{
    out.text(word)?;
    out.text(" ")?;
    out.octets(name)?;
    out.text(behind)
}
