//! The test of a frame, and the entries of one that is broken.

ghost use Rattle.std.specs.Prelude.{◌≡◌, ◌≤◌, ◌*◌, ◌++◌, length, take, drop, IfOk, OnOk, IfSome};
ghost use Rattle.std.specs.Option.{option_map};
ghost use Rattle.frame_model.specs.Reassembly.{marks_of, broken};
ghost use Rattle.frame_model.specs.Frame.{tested, octets_of, last_mark, payload_in, passed_test};

use aal5_frames::{MAX_FRAME, check_pdu};
use atm_cells::Cell;
use link_model::{Cause, Notes, Record};
use net_types::{Mark, OutOfMemory};

/// Enters Broken for the mark of each of these cells that has no entry yet, in order.
pub fn note_broken(notes: &mut Notes, cells: &[Cell]) -> Result<(), OutOfMemory>
    ensures { OnOk result (notes.new ≡ broken notes.old (marks_of cells.now)) }
{
    for cell in cells {
        if !notes.ledger().has(cell.mark) {
            notes.push(Record::Loss {
                mark: cell.mark,
                cause: Cause::Broken,
            })?;
        }
    }
    Ok(())
}

/// Writes the octets of these cells to the front of `out`.
fn join_payloads(cells: &[Cell], out: &mut [u8])
    requires { 48 * length cells.now ≤ length out.old }
    ensures { out.new ≡ octets_of cells.now ++ drop (48 * length cells.now) out.old }
{
    for k in 0..cells.len() {
        out[48 * k..48 * k + 48].copy_from_slice(&cells[k].payload);
    }
}

/// The length in octets of the payload of octets that are a PDU.
fn payload_len(octets: &[u8]) -> Option<usize>
    ensures payload { option_map (λ n. take n octets.now) result ≡ payload_in octets.now }
    ensures len { IfSome result (λ n. n ≤ 1528) }
    ensures within { IfSome result (λ n. n ≤ length octets.now) }
{
    match check_pdu(octets) {
        Ok(len) => Some(len),
        Err(_fault) => None,
    }
}

/// The mark of the last of these cells.
fn last_mark(cells: &[Cell]) -> Mark
    requires { 1 ≤ length cells.now }
    ensures { result ≡ last_mark cells.now }
{
    cells[cells.len() - 1].mark
}

/// A frame passed its test as that of this mark: a chance is noted where another payload was made
/// under the mark.
fn note_chance(notes: &mut Notes, mark: Mark, payload: &[u8]) -> Result<(), OutOfMemory>
    ensures { OnOk result (notes.new ≡ passed_test notes.old mark payload.now) }
{
    if !notes.ledger().is_frame(mark, payload) {
        notes.push(Record::Chance { mark })?;
    }
    Ok(())
}

/// Tests the cells of a chain that a last cell ended, at most 32 of them. A frame that passes is
/// written to the front of `out`, and the answer is its payload's length in octets; where its payload
/// isn't the one that was made under the last cell's mark, a chance is noted. Else the marks that
/// have no entry get Broken.
pub fn test_frame(
    notes: &mut Notes,
    cells: &[Cell],
    out: &mut [u8],
) -> Result<Option<usize>, OutOfMemory>
    requires cells { (1 ≤ length cells.now) × (length cells.now ≤ 32) }
    requires room { 1536 ≤ length out.old }
    ensures notes { OnOk result (notes.new ≡ (tested notes.old cells.now).notes) }
    ensures payload { IfOk result (λ len. option_map (λ n. take n out.new) len ≡ (tested notes.old cells.now).payload) }
    ensures len { IfOk result (λ len. IfSome len (λ n. n ≤ 1528)) }
{
    join_payloads(cells, out);
    let octets = &out[..48 * cells.len()];
    let Some(len) = payload_len(octets) else {
        note_broken(notes, cells)?;
        return Ok(None);
    };
    note_chance(notes, last_mark(cells), &octets[..len])?;
    Ok(Some(len))
}
