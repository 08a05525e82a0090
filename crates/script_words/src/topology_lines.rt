//! The lines that describe a topology, behind their first words.

ghost use Rattle.std.specs.Prelude.{◌≡◌, ◌∷◌, [], true, IfOk};
ghost use Rattle.net_types.specs.Label.{is_label_number};
ghost use Rattle.lab_text.specs.Words.{words};
ghost use Rattle.script_model.specs.declared.keyword.Keyword.TheVariants as word;
ghost use Rattle.script_model.specs.Forms.{NumberWord, read};
ghost use Rattle.script_model.specs.Grammar.{said, label_range_said};
ghost use Rattle.script_model.specs.world_model.Conditions.{HasItsNumbers, IsPort, IsWithin};
ghost use Rattle.script_words.specs.Faults.{ok_as};
ghost use Rattle.script_words.specs.Told.{told, described, said_alike, HasNumbers};
ghost use Rattle.script_words.specs.Ways.{route_described, HasPort};

use crate::forms::{read_address, read_name, read_number_in, read_port, read_time};
use crate::places::{read_end, read_label};
use crate::routes::{Way, way_of};
use crate::said::{Described, Said};
use ipv4_forward::Next;
use net_types::{GREATEST_LABEL_VCI, LEAST_LABEL_VCI, PortNo};
use script_model::LineRefusal;
use word_forms::{four_words, one_word, three_words, two_words};

/// The most cells of a region.
const CELLS: u32 = 16_384;

/// The most packets of a policy.
const PACKETS: u32 = 65_535;

/// The most ticks of a policy.
const WINDOW: u32 = 64;

/// `node NAME ADDRESS`
pub fn node_line<'a>(rest: &'a [u8]) -> Result<Said<'a>, LineRefusal>
    ensures said { ok_as told result ≡ said_alike word.Node (words rest.now) }
    ensures numbers { IfOk result HasNumbers }
{
    let Some((name, address)) = two_words(rest) else {
        return Err(LineRefusal::Arity);
    };
    let name = read_name(name)?;
    let address = read_address(address)?;
    Ok(Said::Describes(Described::Node { name, address }))
}

/// `cells NAME CELLS`
pub fn cells_line<'a>(rest: &'a [u8]) -> Result<Said<'a>, LineRefusal>
    ensures said { ok_as told result ≡ said_alike word.Cells (words rest.now) }
    ensures numbers { IfOk result HasNumbers }
{
    let Some((name, cells)) = two_words(rest) else {
        return Err(LineRefusal::Arity);
    };
    let name = read_name(name)?;
    let cells = read_number_in(cells, 1, CELLS)?;
    Ok(Said::Describes(Described::Cells { name, cells }))
}

/// A range of labels. Refuses `BadNumber` where it ends before it begins.
fn labels_said<'a>(name: &'a [u8], port: PortNo, lo: u16, hi: u16) -> Result<Said<'a>, LineRefusal>
    requires port { IsPort port }
    requires lo { is_label_number lo ≡ true }
    requires hi { is_label_number hi ≡ true }
    ensures said { ok_as told result ≡ label_range_said name.now port lo hi }
    ensures numbers { IfOk result HasNumbers }
{
    if hi < lo {
        return Err(LineRefusal::BadNumber);
    }
    Ok(Said::Describes(Described::Labels { name, port, lo, hi }))
}

/// The number of a label of VPI 0: its VCI, 32 to 1023. Refuses `BadNumber`.
fn read_vci(word: &[u8]) -> Result<u16, LineRefusal>
    ensures label { result ≡ read (NumberWord 32 1023) word.now }
    ensures within { IfOk result (λ label. is_label_number label ≡ true) }
{
    let vci = read_number_in(word, LEAST_LABEL_VCI as u32, GREATEST_LABEL_VCI as u32)?;
    Ok(vci as u16)
}

/// `labels NAME PORT VCI VCI`
fn labels_by_vci<'a>(rest: &'a [u8]) -> Result<Said<'a>, LineRefusal>
    ensures said { ok_as told result ≡ said 1 word.Labels (words rest.now) }
    ensures numbers { IfOk result HasNumbers }
{
    let Some((name, port, lo, hi)) = four_words(rest) else {
        return Err(LineRefusal::Arity);
    };
    let name = read_name(name)?;
    let port = read_port(port)?;
    let lo = read_vci(lo)?;
    let hi = read_vci(hi)?;
    labels_said(name, port, lo, hi)
}

/// `labels NAME PORT VPI/VCI VPI/VCI`
fn labels_by_channel<'a>(rest: &'a [u8]) -> Result<Said<'a>, LineRefusal>
    ensures said { ok_as told result ≡ said 2 word.Labels (words rest.now) }
    ensures numbers { IfOk result HasNumbers }
{
    let Some((name, port, lo, hi)) = four_words(rest) else {
        return Err(LineRefusal::Arity);
    };
    let name = read_name(name)?;
    let port = read_port(port)?;
    let lo = read_label(lo)?;
    let hi = read_label(hi)?;
    labels_said(name, port, lo, hi)
}

/// `labels NAME PORT LEAST GREATEST`, the labels as the version writes them
pub fn labels_line<'a>(version: u8, rest: &'a [u8]) -> Result<Said<'a>, LineRefusal>
    ensures said { ok_as told result ≡ said version word.Labels (words rest.now) }
    ensures numbers { IfOk result HasNumbers }
{
    if version == 2 {
        labels_by_channel(rest)
    } else {
        labels_by_vci(rest)
    }
}

/// `link END END`
pub fn link_line<'a>(rest: &'a [u8]) -> Result<Said<'a>, LineRefusal>
    ensures said { ok_as told result ≡ said_alike word.Link (words rest.now) }
    ensures numbers { IfOk result HasNumbers }
{
    let Some((first, second)) = two_words(rest) else {
        return Err(LineRefusal::Arity);
    };
    let (first, first_port) = read_end(first)?;
    let (second, second_port) = read_end(second)?;
    Ok(Said::Describes(Described::Link {
        first,
        first_port,
        second,
        second_port,
    }))
}

/// `policy xy PACKETS TICKS`
fn policy_xy<'a>(fixed: &'a [u8], x: &'a [u8], y: &'a [u8]) -> Result<Said<'a>, LineRefusal>
    ensures said { ok_as told result ≡ said_alike word.Policy (fixed.now ∷ x.now ∷ y.now ∷ []) }
    ensures numbers { IfOk result HasNumbers }
{
    if fixed != "xy".as_bytes() {
        return Err(LineRefusal::UnknownWord);
    }
    let x = read_number_in(x, 1, PACKETS)?;
    let y = read_number_in(y, 1, WINDOW)?;
    Ok(Said::Describes(Described::PolicyXy { x, y }))
}

/// `policy xy PACKETS TICKS` or `policy never`
pub fn policy_line<'a>(rest: &'a [u8]) -> Result<Said<'a>, LineRefusal>
    ensures said { ok_as told result ≡ said_alike word.Policy (words rest.now) }
    ensures numbers { IfOk result HasNumbers }
{
    if let Some((fixed, x, y)) = three_words(rest) {
        return policy_xy(fixed, x, y);
    }
    let Some(fixed) = one_word(rest) else {
        return Err(LineRefusal::Arity);
    };
    if fixed != "never".as_bytes() {
        return Err(LineRefusal::UnknownWord);
    }
    Ok(Said::Describes(Described::PolicyNever))
}

/// `timers LIFETIME REFRESH IDLE`
pub fn timers_line<'a>(rest: &'a [u8]) -> Result<Said<'a>, LineRefusal>
    ensures said { ok_as told result ≡ said_alike word.Timers (words rest.now) }
    ensures numbers { IfOk result HasNumbers }
{
    let Some((lifetime, refresh, idle)) = three_words(rest) else {
        return Err(LineRefusal::Arity);
    };
    let lifetime = read_time(lifetime)?;
    let refresh = read_time(refresh)?;
    let idle = read_time(idle)?;
    Ok(Said::Describes(Described::Timers {
        lifetime,
        refresh,
        idle,
    }))
}

/// `version VERSION`
pub fn version_line<'a>(rest: &'a [u8]) -> Result<Said<'a>, LineRefusal>
    ensures said { ok_as told result ≡ said_alike word.Version (words rest.now) }
    ensures numbers { IfOk result HasNumbers }
{
    let Some(version) = one_word(rest) else {
        return Err(LineRefusal::Arity);
    };
    let version = read_number_in(version, 1, 2)?;
    Ok(Said::Describes(Described::Version {
        version: version as u8,
    }))
}

/// A route as one of the topology.
fn route_described(way: Way<'_>) -> Described<'_>
    requires { HasPort way }
    ensures described { described result ≡ route_described way.entry.name.now way.entry.prefix way.entry.next }
    ensures numbers { HasItsNumbers (described result) }
{
    let Way { name, prefix, next } = way;
    match next {
        Next::Local => Described::RouteLocal { name, prefix },
        Next::Via(port) => Described::RouteVia { name, prefix, port },
    }
}

/// `route NAME PREFIX via PORT` or `route NAME PREFIX local`
pub fn route_line<'a>(rest: &'a [u8]) -> Result<Said<'a>, LineRefusal>
    ensures said { ok_as told result ≡ said_alike word.Route (words rest.now) }
    ensures numbers { IfOk result HasNumbers }
{
    match way_of(rest) {
        Ok(way) => Ok(Said::Describes(route_described(way))),
        Err(refusal) => Err(refusal),
    }
}
