//! The reading of a record from its line, for tests and claims alone.

ghost use Rattle.std.specs.Prelude.{◌≡◌, ◌↔◌, IsTrue, IfOk};
ghost use Rattle.lab_text.specs.Words.{words};
ghost use Rattle.topology.specs.world_model.Conditions.{IsTopology};
ghost use Rattle.script_model.specs.Records.{IsLineOf};
ghost use Rattle.record_text.specs.Readable.{IsRead};
ghost use Rattle.record_text.specs.Reading.{delivered_in, dropped_in, refused_in, loss_in, chance_in, bad_in, opened_in, closed_in, bind_in, free_in, join_in, part_in, forged_in, routes_in, fields_tell, words_tell};

use crate::conditions::has_line;
use crate::forms::{read_flow, read_label, read_mark, read_place, read_port};
use crate::kind::{Kind, kind_of};
use crate::names::{cause_of, drop_of, layer_of, refusal_of};
use crate::words::{five_words, four_words, one_word, three_words, two_words};
use crate::write::write_record;
use lab_text::{Text, line_text, read_hex, read_number, split_word};
use link_model::Record;
use net_types::{Octets, OutOfMemory};
use std::alloc::Global;
use topology::Topology;

fn delivered(alloc: Global, names: &Topology, fields: &[u8]) -> Result<Option<Record>, OutOfMemory>
    ensures { IfOk result (λ found. found ≡ delivered_in names.now (words fields.now)) }
{
    let Some((name, packet, octets)) = three_words(fields) else {
        return Ok(None);
    };
    let Some(node) = names.node_of(name) else {
        return Ok(None);
    };
    let Some(packet) = read_number(packet) else {
        return Ok(None);
    };
    let Some(octets) = read_hex(alloc, octets)? else {
        return Ok(None);
    };
    Ok(Some(Record::Delivered {
        node,
        packet,
        octets: Octets::new(octets),
    }))
}

fn dropped(names: &Topology, fields: &[u8]) -> Option<Record>
    ensures { result ≡ dropped_in names.now (words fields.now) }
{
    let (name, packet, cause) = three_words(fields)?;
    let node = names.node_of(name)?;
    let packet = read_number(packet)?;
    let cause = drop_of(cause)?;
    Some(Record::Dropped {
        node,
        packet,
        cause,
    })
}

fn refused(names: &Topology, fields: &[u8]) -> Option<Record>
    ensures { result ≡ refused_in names.now (words fields.now) }
{
    let (name, packet, refusal) = three_words(fields)?;
    let node = names.node_of(name)?;
    let packet = read_number(packet)?;
    let name = refusal_of(refusal)?;
    Some(Record::Refused { node, packet, name })
}

fn loss(fields: &[u8]) -> Option<Record>
    ensures { result ≡ loss_in (words fields.now) }
{
    let (mark, cause) = two_words(fields)?;
    let mark = read_mark(mark)?;
    let cause = cause_of(cause)?;
    Some(Record::Loss { mark, cause })
}

fn chance(fields: &[u8]) -> Option<Record>
    ensures { result ≡ chance_in (words fields.now) }
{
    let mark = one_word(fields)?;
    let mark = read_mark(mark)?;
    Some(Record::Chance { mark })
}

fn bad(names: &Topology, fields: &[u8]) -> Option<Record>
    ensures { result ≡ bad_in names.now (words fields.now) }
{
    let (name, layer, refusal) = three_words(fields)?;
    let node = names.node_of(name)?;
    let layer = layer_of(layer)?;
    let name = refusal_of(refusal)?;
    Some(Record::Bad { node, layer, name })
}

fn opened(names: &Topology, fields: &[u8]) -> Option<Record>
    ensures { result ≡ opened_in names.now (words fields.now) }
{
    let (name, port) = two_words(fields)?;
    let node = names.node_of(name)?;
    let port = read_port(port)?;
    Some(Record::Opened { node, port })
}

fn closed(names: &Topology, fields: &[u8]) -> Option<Record>
    ensures { result ≡ closed_in names.now (words fields.now) }
{
    let (name, port) = two_words(fields)?;
    let node = names.node_of(name)?;
    let port = read_port(port)?;
    Some(Record::Closed { node, port })
}

fn bind(alloc: Global, names: &Topology, fields: &[u8]) -> Result<Option<Record>, OutOfMemory>
    ensures { IfOk result (λ found. found ≡ bind_in names.now (words fields.now)) }
{
    let Some((name, port, label, flow)) = four_words(fields) else {
        return Ok(None);
    };
    let Some(node) = names.node_of(name) else {
        return Ok(None);
    };
    let Some(port) = read_port(port) else {
        return Ok(None);
    };
    let Some(vci) = read_label(names, label) else {
        return Ok(None);
    };
    let Some(octets) = read_hex(alloc, flow)? else {
        return Ok(None);
    };
    match read_flow(octets.as_slice()) {
        Some(flow) => Ok(Some(Record::Bind {
            node,
            port,
            vci,
            flow,
        })),
        None => Ok(None),
    }
}

fn free(names: &Topology, fields: &[u8]) -> Option<Record>
    ensures { result ≡ free_in names.now (words fields.now) }
{
    let (name, port, label) = three_words(fields)?;
    let node = names.node_of(name)?;
    let port = read_port(port)?;
    let vci = read_label(names, label)?;
    Some(Record::Free { node, port, vci })
}

fn join(names: &Topology, fields: &[u8]) -> Option<Record>
    ensures { result ≡ join_in names.now (words fields.now) }
{
    let (name, port, label, to_port, to_label) = five_words(fields)?;
    let node = names.node_of(name)?;
    let port = read_port(port)?;
    let vci = read_label(names, label)?;
    let to_port = read_port(to_port)?;
    let to_vci = read_label(names, to_label)?;
    Some(Record::Join {
        node,
        port,
        vci,
        to_port,
        to_vci,
    })
}

fn part(names: &Topology, fields: &[u8]) -> Option<Record>
    ensures { result ≡ part_in names.now (words fields.now) }
{
    let (name, port, label) = three_words(fields)?;
    let node = names.node_of(name)?;
    let port = read_port(port)?;
    let vci = read_label(names, label)?;
    Some(Record::Part { node, port, vci })
}

fn forged(names: &Topology, fields: &[u8]) -> Option<Record>
    ensures { result ≡ forged_in names.now (words fields.now) }
{
    let place = one_word(fields)?;
    let place = read_place(names, place)?;
    Some(Record::Forged { place })
}

fn routes(names: &Topology, fields: &[u8]) -> Option<Record>
    ensures { result ≡ routes_in names.now (words fields.now) }
{
    let (name, number) = two_words(fields)?;
    let node = names.node_of(name)?;
    let number = read_number(number)?;
    Some(Record::Routes { node, number })
}

/// The record of this kind that the words behind the first tell of.
fn fields_tell(
    alloc: Global,
    names: &Topology,
    kind: Kind,
    fields: &[u8],
) -> Result<Option<Record>, OutOfMemory>
    ensures { IfOk result (λ found. found ≡ fields_tell names.now kind (words fields.now)) }
{
    match kind {
        Kind::Delivered => delivered(alloc, names, fields),
        Kind::Dropped => Ok(dropped(names, fields)),
        Kind::Refused => Ok(refused(names, fields)),
        Kind::Loss => Ok(loss(fields)),
        Kind::Chance => Ok(chance(fields)),
        Kind::Bad => Ok(bad(names, fields)),
        Kind::Opened => Ok(opened(names, fields)),
        Kind::Closed => Ok(closed(names, fields)),
        Kind::Bind => bind(alloc, names, fields),
        Kind::Free => Ok(free(names, fields)),
        Kind::Join => Ok(join(names, fields)),
        Kind::Part => Ok(part(names, fields)),
        Kind::Forged => Ok(forged(names, fields)),
        Kind::Routes => Ok(routes(names, fields)),
    }
}

/// The record that the words of a text tell of.
fn text_tells(alloc: Global, names: &Topology, text: &[u8]) -> Result<Option<Record>, OutOfMemory>
    ensures { IfOk result (λ found. found ≡ words_tell names.now (words text.now)) }
{
    let Some((word, fields)) = split_word(text) else {
        return Ok(None);
    };
    match kind_of(word) {
        Some(kind) => fields_tell(alloc, names, kind, fields),
        None => Ok(None),
    }
}

/// Whether these octets are the line of this record.
fn is_line_of(
    alloc: Global,
    names: &Topology,
    octets: &[u8],
    item: &Record,
) -> Result<bool, OutOfMemory>
    ensures { IfOk result (λ is. IsTrue is ↔ IsLineOf names.now octets.now item.now) }
{
    if !has_line(names, item) {
        return Ok(false);
    }
    let mut line = Text::new(alloc);
    write_record(item, names, &mut line)?;
    Ok(line.as_slice() == octets)
}

/// Does nothing; what it tells is so of every topology.
fn tell_topology(names: &Topology)
    ensures { IsTopology names.now }
{
    let _nodes = names.nodes();
}

/// The record whose line these octets are, with its LF; `None` where no record has this line. Each
/// record is read from its line whose node has a name as scripts give them, and whose numbers fit
/// their fields.
pub fn read_record(
    alloc: Global,
    octets: &[u8],
    names: &Topology,
) -> Result<Option<Record>, OutOfMemory>
    ensures { IfOk result (λ found. IsRead names.now octets.now found) }
{
    tell_topology(names);
    match text_tells(alloc, names, line_text(octets))? {
        Some(item) => {
            if is_line_of(alloc, names, octets, &item)? {
                Ok(Some(item))
            } else {
                Ok(None)
            }
        }
        None => Ok(None),
    }
}
