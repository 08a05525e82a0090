//! Cells and their octets (I.361 2.2).
//!
//! | Octet | Content, the highest bit first |
//! |---|---|
//! | 0 | GFC (4 bits, 0), VPI bits 7 to 4 |
//! | 1 | VPI bits 3 to 0, VCI bits 15 to 12 |
//! | 2 | VCI bits 11 to 4 |
//! | 3 | VCI bits 3 to 0, PT (3 bits, 1 in the last cell of a frame, else 0), CLP (1 bit, 0) |
//! | 4 | HEC |
//! | 5 to 52 | payload |

ghost use Rattle.std.specs.Prelude.{◌≡◌, ℕ, ◌^◌, ◌<◌, ◌≤◌, List, length, IfOk};
ghost use Rattle.std.specs.Result.{result_err};
ghost use Rattle.net_types.specs.declared.channel.Channel.{Channel};
ghost use Rattle.atm_cells.specs.declared.cell.Header.{Header};
ghost use Rattle.atm_cells.specs.Cell.{cell_octets, cell_fault, header_front};

use crate::cell::{Cell, Header};
use crate::fault::CellFault;
use crate::hec::hec;
use byteorder::{BigEndian, ByteOrder};
use net_types::Channel;

/// The first four octets of a header.
fn front(header: &Header) -> [u8; 4]
    requires { header.now.channel.vpi ≤ 255 }
    ensures { result ≡ header_front header.now }
{
    let Channel { vpi, vci } = header.channel;
    let word = u32::from(vpi) << 20 | u32::from(vci) << 4 | u32::from(header.last) << 1;
    let mut octets = [0; 4];
    BigEndian::write_u32(&mut octets, word);
    octets
}

/// The 53 octets of a cell. Its mark isn't among them.
pub fn encode(cell: &Cell) -> [u8; 53]
    requires { cell.now.header.channel.vpi ≤ 255 }
    ensures { result ≡ cell_octets cell.now.header cell.now.payload }
{
    let front = front(&cell.header);
    let mut octets = [0; 53];
    octets[..4].copy_from_slice(&front);
    octets[4] = hec(&front);
    octets[5..].copy_from_slice(&cell.payload);
    octets
}

/// The header and the payload of 53 octets. Refuses `Hec`, `Gfc`, `Pt` (above 1) and `Clp`, in this
/// order.
pub fn decode(octets: &[u8; 53]) -> Result<(Header, [u8; 48]), CellFault>
    ensures ok { IfOk result (λ cell. octets.now ≡ cell_octets cell.0 cell.1) }
    ensures vpi { IfOk result (λ cell. cell.0.channel.vpi ≤ 255) }
    ensures refused { result_err result ≡ cell_fault octets.now }
    ensures inverse { (header : Header) → (payload : List ℕ) → header.channel.vpi ≤ 255 → header.channel.vci < 2 ^ 16 → octets.now ≡ cell_octets header payload → result ≡ Ok (header, payload) }
{
    let front = [octets[0], octets[1], octets[2], octets[3]];
    if octets[4] != hec(&front) {
        return Err(CellFault::Hec);
    }
    let word = u32::from_be_bytes(front);
    if word >> 28 != 0 {
        return Err(CellFault::Gfc);
    }
    let payload_type = word >> 1 & 7;
    if payload_type > 1 {
        return Err(CellFault::Pt);
    }
    if word & 1 != 0 {
        return Err(CellFault::Clp);
    }
    let channel = Channel {
        vpi: (word >> 20) as u16,
        vci: (word >> 4 & 0xffff) as u16,
    };
    let mut payload = [0; 48];
    payload.copy_from_slice(&octets[5..]);
    Ok((
        Header {
            channel,
            last: payload_type == 1,
        },
        payload,
    ))
}
