//! The words of a route.

ghost use Rattle.std.specs.Prelude.{◌≡◌, ◌∷◌, [], IfOk};
ghost use Rattle.lab_text.specs.Words.{words};
ghost use Rattle.script_model.specs.declared.keyword.Keyword.TheVariants as word;
ghost use Rattle.script_words.specs.Faults.{ok_as};
ghost use Rattle.script_words.specs.Told.{said_alike};
ghost use Rattle.script_words.specs.Ways.{way_described, way_changed, HasPort};

use crate::forms::{read_name, read_port, read_prefix};
use ipv4_forward::Next;
use net_types::Prefix;
use script_model::LineRefusal;
use word_forms::{four_words, three_words};

/// A static route with the name of its node.
#[derive(Drop)]
pub struct Way<'a> {
    /// The node's name.
    pub name: &'a [u8],
    /// The destinations.
    pub prefix: Prefix,
    /// Where their packets go.
    pub next: Next,
}

fn way_via<'a>(
    name: &'a [u8],
    prefix: &'a [u8],
    fixed: &'a [u8],
    port: &'a [u8],
) -> Result<Way<'a>, LineRefusal>
    ensures described { ok_as way_described result ≡ said_alike word.Route (name.now ∷ prefix.now ∷ fixed.now ∷ port.now ∷ []) }
    ensures changed { ok_as way_changed result ≡ said_alike word.SetRoute (name.now ∷ prefix.now ∷ fixed.now ∷ port.now ∷ []) }
    ensures port { IfOk result HasPort }
{
    if fixed != "via".as_bytes() {
        return Err(LineRefusal::UnknownWord);
    }
    let name = read_name(name)?;
    let prefix = read_prefix(prefix)?;
    let port = read_port(port)?;
    Ok(Way {
        name,
        prefix,
        next: Next::Via(port),
    })
}

fn way_local<'a>(name: &'a [u8], prefix: &'a [u8], fixed: &'a [u8]) -> Result<Way<'a>, LineRefusal>
    ensures described { ok_as way_described result ≡ said_alike word.Route (name.now ∷ prefix.now ∷ fixed.now ∷ []) }
    ensures changed { ok_as way_changed result ≡ said_alike word.SetRoute (name.now ∷ prefix.now ∷ fixed.now ∷ []) }
    ensures port { IfOk result HasPort }
{
    if fixed != "local".as_bytes() {
        return Err(LineRefusal::UnknownWord);
    }
    let name = read_name(name)?;
    let prefix = read_prefix(prefix)?;
    Ok(Way {
        name,
        prefix,
        next: Next::Local,
    })
}

/// `NAME PREFIX via PORT` or `NAME PREFIX local`
pub fn way_of<'a>(rest: &'a [u8]) -> Result<Way<'a>, LineRefusal>
    ensures described { ok_as way_described result ≡ said_alike word.Route (words rest.now) }
    ensures changed { ok_as way_changed result ≡ said_alike word.SetRoute (words rest.now) }
    ensures port { IfOk result HasPort }
{
    if let Some((name, prefix, fixed, port)) = four_words(rest) {
        return way_via(name, prefix, fixed, port);
    }
    if let Some((name, prefix, fixed)) = three_words(rest) {
        return way_local(name, prefix, fixed);
    }
    Err(LineRefusal::Arity)
}
