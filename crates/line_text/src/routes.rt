//! The lines of routes.

ghost use Rattle.std.specs.Prelude.{◌≡◌, ◌++◌, ◌∷◌, [], OnOk, OnErr, codes};
ghost use Rattle.lab_text.specs.Kept.{BreaksOff};
ghost use Rattle.lab_text.specs.Text.{line_of};
ghost use Rattle.script_model.specs.Texts.{prefix_text, port_text};

use crate::parts::write_named;
use lab_text::Text;
use net_types::{OutOfMemory, PortNo, Prefix};
use record_text::{write_port, write_prefix};

/// Appends the line of a route that leads out of a port.
pub(crate) fn write_via(
    out: &mut Text,
    word: &str,
    name: &[u8],
    prefix: Prefix,
    port: PortNo,
) -> Result<(), OutOfMemory>
    ensures ok { OnOk result (out.new ≡ out.old ++ line_of (word.now ∷ name.now ∷ prefix_text prefix ∷ codes "via" ∷ port_text port ∷ [])) }
    ensures err { OnErr result (BreaksOff out.old (out.old ++ line_of (word.now ∷ name.now ∷ prefix_text prefix ∷ codes "via" ∷ port_text port ∷ [])) out.new) }
{
    write_named(out, word, name, " ")?;
    write_prefix(out, prefix)?;
    out.text(" via ")?;
    write_port(out, port)?;
    out.text("\n")
}

/// Appends the line of a route to the node itself.
pub(crate) fn write_local(
    out: &mut Text,
    word: &str,
    name: &[u8],
    prefix: Prefix,
) -> Result<(), OutOfMemory>
    ensures ok { OnOk result (out.new ≡ out.old ++ line_of (word.now ∷ name.now ∷ prefix_text prefix ∷ codes "local" ∷ [])) }
    ensures err { OnErr result (BreaksOff out.old (out.old ++ line_of (word.now ∷ name.now ∷ prefix_text prefix ∷ codes "local" ∷ [])) out.new) }
{
    write_named(out, word, name, " ")?;
    write_prefix(out, prefix)?;
    out.text(" local\n")
}

/// Appends the line of a prefix whose route goes.
pub(crate) fn write_unroute(out: &mut Text, name: &[u8], prefix: Prefix) -> Result<(), OutOfMemory>
    ensures ok { OnOk result (out.new ≡ out.old ++ line_of (codes "unroute" ∷ name.now ∷ prefix_text prefix ∷ [])) }
    ensures err { OnErr result (BreaksOff out.old (out.old ++ line_of (codes "unroute" ∷ name.now ∷ prefix_text prefix ∷ [])) out.new) }
{
    write_named(out, "unroute", name, " ")?;
    write_prefix(out, prefix)?;
    out.text("\n")
}
