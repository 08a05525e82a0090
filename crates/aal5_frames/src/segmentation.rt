//! From a payload to cells (I.363.5 9.1, 9.2.1).

ghost use Rattle.std.specs.Prelude.{◌≡◌, ◌+◌, ◌-◌, ◌*◌, ◌/◌, ◌≤◌, ◌++◌, length, take, drop, flat_map};
ghost use Rattle.std.specs.Int.{w16, w32, to_be_bytes};
ghost use Rattle.atm_cells.specs.declared.cell.Cell.{Cell};
ghost use Rattle.aal5_frames.specs.Crc.{crc_of};
ghost use Rattle.aal5_frames.specs.Frame.{IsPdu, cell_of, cells_for, cells_with, pdu_of};

use crate::crc::crc32;
use atm_cells::{Cell, Header};
use byteorder::{BigEndian, ByteOrder};
use net_types::{Channel, Mark};

/// The most cells of a frame. It is this project's own limit.
pub const MOST_CELLS: usize = 32;

/// The greatest CPCS-PDU, in octets: that of 32 cells.
pub const MAX_FRAME: usize = 1536;

/// The most octets of a payload: those of 32 cells, but for the 8 of the trailer. It is this project's
/// own limit.
pub const GREATEST_PAYLOAD: usize = 1528;

/// The most cells of a short frame, as those of most messages are.
pub const FEW_CELLS: usize = 4;

/// How many cells carry a payload of `len` octets.
pub fn cells_of(len: usize) -> usize
    requires { (1 ≤ len) × (len ≤ 1528) }
    ensures { result ≡ (len + 55) / 48 }
{
    (len + 55) / 48
}

/// Writes the Length and the CRC of a PDU over its last six octets.
fn write_trailer(pdu: &mut [u8], len: u16)
    requires { 8 ≤ length pdu.old }
    ensures { let front = take (length pdu.old - 6) pdu.old ++ to_be_bytes w16 len in pdu.new ≡ front ++ to_be_bytes w32 (crc_of front) }
{
    let end = pdu.len();
    BigEndian::write_u16(&mut pdu[end - 6..end - 4], len);
    let crc = crc32(&pdu[..end - 4]);
    BigEndian::write_u32(&mut pdu[end - 4..end], crc);
}

/// Writes the PDU of a payload, with zero pad and UU, over all of `pdu`.
fn write_pdu(payload: &[u8], pdu: &mut [u8])
    requires len { (1 ≤ length payload.now) × (length payload.now ≤ 1528) }
    requires room { length pdu.old ≡ 48 * cells_for (length payload.now) }
    ensures { pdu.new ≡ pdu_of payload.now }
{
    pdu[..payload.len()].copy_from_slice(payload);
    pdu[payload.len()..].fill(0);
    write_trailer(pdu, payload.len() as u16);
}

/// The `k`-th cell, from 0, of a PDU.
fn cell_at(pdu: &[u8], k: usize, channel: Channel, mark: Mark) -> Cell
    requires { 48 * (k + 1) ≤ length pdu.now }
    ensures { result ≡ cell_of channel mark pdu.now k }
{
    let end = 48 * (k + 1);
    let mut payload = [0; 48];
    payload.copy_from_slice(&pdu[end - 48..end]);
    let last = end == pdu.len();
    Cell {
        header: Header { channel, last },
        payload,
        mark,
    }
}

/// Writes the cells of a payload's PDU, which is made in `pdu`, to the front of `out`.
fn write_cells(payload: &[u8], channel: Channel, mark: Mark, pdu: &mut [u8], out: &mut [Cell])
    requires len { (1 ≤ length payload.now) × (length payload.now ≤ 1528) }
    requires pdu { length pdu.old ≡ 48 * cells_for (length payload.now) }
    requires room { cells_for (length payload.now) ≤ length out.old }
    ensures written { out.new ≡ cells_with channel mark (pdu_of payload.now) ++ drop (cells_for (length payload.now)) out.old }
    ensures pdu { IsPdu payload.now (flat_map (λ c. c.payload) (take (cells_for (length payload.now)) out.new)) }
{
    write_pdu(payload, pdu);
    for k in 0..cells_of(payload.len()) {
        out[k] = cell_at(pdu, k, channel, mark);
    }
}

/// Writes the cells of `payload`'s CPCS-PDU to the front of `out`, all on `channel` with `mark` and
/// the last alone marked as last, and answers how many they are. Pad and UU are zero.
pub fn segment(payload: &[u8], channel: Channel, mark: Mark, out: &mut [Cell]) -> usize
    requires len { (1 ≤ length payload.now) × (length payload.now ≤ 1528) }
    requires room { cells_for (length payload.now) ≤ length out.old }
    ensures cells { result ≡ cells_for (length payload.now) }
    ensures written { out.new ≡ cells_with channel mark (pdu_of payload.now) ++ drop result out.old }
    ensures pdu { IsPdu payload.now (flat_map (λ c. c.payload) (take result out.new)) }
{
    let count = cells_of(payload.len());
    if count <= FEW_CELLS {
        let mut pdu = [0; 48 * FEW_CELLS];
        write_cells(payload, channel, mark, &mut pdu[..48 * count], out);
    } else {
        let mut pdu = [0; MAX_FRAME];
        write_cells(payload, channel, mark, &mut pdu[..48 * count], out);
    }
    count
}
