//! A frame as a packet.

ghost use Rattle.std.specs.Prelude.{◌≡◌, ◌≤◌, ◌+◌, ◌*◌, ◌++◌, length, take, codes, IfOk, IfSome, OnOk, if◌then◌else◌};
ghost use Rattle.std.specs.List.{list_any};
ghost use Rattle.std.specs.Option.{option_map};
ghost use Rattle.link_model.specs.Ledger.{same_mark};
ghost use Rattle.frame_model.specs.Frame.{octets_of, payload_in};
ghost use Rattle.frame_model.specs.Reassembly.{distinct, marks_of};
ghost use Rattle.script_model.specs.Texts.{mark_text};
ghost use Rattle.pcapng_blocks.specs.Blocks.{block_octets};
ghost use Rattle.frame_packets.specs.Packet.{comment_of, data_of, head_of, is_default, kind_of, marks_text, packet_of, payload_of};

use crate::tap::Tap;
use aal5_frames::check_pdu;
use atm_cells::Cell;
use frame_words::write_frame;
use lab_text::Text;
use net_types::{Channel, DEFAULT_CHANNEL, LAST_PORT, Mark, OutOfMemory, Place, VPIS_PER_PORT};
use pcapng_blocks::write_enhanced_packet;
use record_text::write_mark;
use std::alloc::Global;
use telling_model::Standing;

/// What a head says of octets in the LLC encapsulation, and of others.
const LLC: u8 = 2;

const NOT_TOLD: u8 = 4;

/// The VPI of the default channel of the last port, on a control link.
const LAST_CONTROL_VPI: u16 = VPIS_PER_PORT * LAST_PORT as u16;

/// Appends the payloads of cells.
fn put_payloads(out: &mut Vec<u8>, cells: &[Cell]) -> Result<(), OutOfMemory>
    ensures octets { OnOk result (out.new.items ≡ out.old.items ++ octets_of cells.now) }
    ensures len { OnOk result (length out.new.items ≡ length out.old.items + 48 * length cells.now) }
{
    for cell in cells {
        out.extend_from_slice(&cell.payload)?;
    }
    Ok(())
}

/// The length in octets of the payload of octets that are a frame with its trailer.
fn payload_len(octets: &[u8]) -> Option<usize>
    ensures payload { option_map (λ n. take n octets.now) result ≡ payload_in octets.now }
    ensures within { IfSome result (λ n. n ≤ length octets.now) }
{
    match check_pdu(octets) {
        Ok(len) => Some(len),
        Err(_fault) => None,
    }
}

/// The length in octets of the payload of a tap's cells, whose octets these are. None where they are no
/// whole frame.
fn whole_len(tap: &Tap, octets: &[u8]) -> Option<usize>
    requires octets { octets.now ≡ octets_of tap.now.kept }
    ensures payload { option_map (λ n. take n octets.now) result ≡ payload_of tap.now }
    ensures within { IfSome result (λ n. n ≤ length octets.now) }
{
    if tap.has_more() {
        None
    } else {
        payload_len(octets)
    }
}

/// Whether frames on a channel of a queue are in the default encapsulation.
fn is_default(place: Place, channel: Channel) -> bool
    ensures { result ≡ is_default place channel }
{
    let is_control = !matches!(place, Place::Out(_, _));
    channel.vci == DEFAULT_CHANNEL.vci
        && (channel.vpi == DEFAULT_CHANNEL.vpi
            || (is_control && channel.vpi % VPIS_PER_PORT == 0 && channel.vpi <= LAST_CONTROL_VPI))
}

fn kind_of(place: Place, channel: Channel) -> u8
    ensures { result ≡ kind_of place channel }
{
    if is_default(place, channel) {
        LLC
    } else {
        NOT_TOLD
    }
}

/// Appends a packet's head.
fn put_head(out: &mut Vec<u8>, kind: u8, channel: Channel) -> Result<(), OutOfMemory>
    ensures { OnOk result (out.new.items ≡ out.old.items ++ head_of kind channel) }
{
    let [high, low] = channel.vci.to_be_bytes();
    out.extend_from_slice(&[kind, (channel.vpi % 256) as u8, high, low])?;
    Ok(())
}

/// Appends a packet's data, of the cells of its tap, whose octets these are, and the length in octets of
/// their payload.
fn put_data(
    out: &mut Vec<u8>,
    standing: &Standing,
    tap: &Tap,
    octets: &[u8],
    whole: Option<usize>,
) -> Result<(), OutOfMemory>
    requires octets { octets.now ≡ octets_of tap.now.kept }
    requires within { IfSome whole (λ n. n ≤ length octets.now) }
    ensures data { OnOk result (out.new.items ≡ out.old.items ++ data_of standing.now.place standing.now.cell.header.channel tap.now.kept (option_map (λ n. take n octets.now) whole)) }
    ensures len { OnOk result (length out.new.items ≤ length out.old.items + (4 + length octets.now)) }
{
    let channel = standing.cell.header.channel;
    match whole {
        None => {
            put_head(out, NOT_TOLD, channel)?;
            out.extend_from_slice(octets)?;
        }
        Some(len) => {
            put_head(out, kind_of(standing.place, channel), channel)?;
            out.extend_from_slice(&octets[..len])?;
        }
    }
    Ok(())
}

/// Whether one of these cells has the mark.
fn has_mark(cells: &[Cell], mark: Mark) -> bool
    ensures { result ≡ list_any (λ cell. same_mark cell.mark mark) cells.now }
{
    cells.iter().any(|cell| cell.mark == mark)
}

/// Appends a mark that none of the cells before has.
fn write_new_mark(out: &mut Text, before: &[Cell], mark: Mark) -> Result<(), OutOfMemory>
    ensures { OnOk result (out.new ≡ (if list_any (λ cell. same_mark cell.mark mark) before.now then out.old else out.old ++ (codes " " ++ mark_text mark))) }
{
    if has_mark(before, mark) {
        return Ok(());
    }
    out.text(" ")?;
    write_mark(out, mark)
}

/// Appends the marks of cells, each once.
fn write_marks(out: &mut Text, cells: &[Cell]) -> Result<(), OutOfMemory>
    ensures { OnOk result (out.new ≡ out.old ++ marks_text (distinct (marks_of cells.now))) }
{
    for place in 0..cells.len() {
        write_new_mark(out, &cells[..place], cells[place].mark)?;
    }
    Ok(())
}

/// Appends a packet's comment, of the cells of its tap, their octets, and the length in octets of their
/// payload.
fn write_comment(
    out: &mut Text,
    last: Mark,
    tap: &Tap,
    octets: &[u8],
    whole: Option<usize>,
) -> Result<(), OutOfMemory>
    requires within { IfSome whole (λ n. n ≤ length octets.now) }
    ensures { OnOk result (out.new ≡ out.old ++ comment_of last tap.now.kept (option_map (λ n. take n octets.now) whole)) }
{
    match whole {
        None => {
            out.text("broken")?;
            write_marks(out, tap.cells())
        }
        Some(len) => {
            write_mark(out, last)?;
            out.text(" ")?;
            write_frame(out, &octets[..len])
        }
    }
}

/// The packet that a last cell ends, of the cells of its tap: its interface, and the number of the event
/// that carried the cell.
pub fn packet_block(
    alloc: Global,
    interface: u32,
    number: u64,
    standing: &Standing,
    tap: &Tap,
) -> Result<Vec<u8>, OutOfMemory>
    ensures { IfOk result (λ block. block.items ≡ block_octets (packet_of interface number standing.now tap.now)) }
{
    let mut octets = Vec::new(alloc);
    put_payloads(&mut octets, tap.cells())?;
    let whole = whole_len(tap, octets.as_slice());
    let mut packet = Vec::new(alloc);
    put_data(&mut packet, standing, tap, octets.as_slice(), whole)?;
    let mut comment = Text::new(alloc);
    write_comment(
        &mut comment,
        standing.cell.mark,
        tap,
        octets.as_slice(),
        whole,
    )?;
    let mut block = Vec::new(alloc);
    write_enhanced_packet(
        &mut block,
        interface,
        number,
        packet.as_slice(),
        comment.as_slice(),
    )?;
    Ok(block)
}
