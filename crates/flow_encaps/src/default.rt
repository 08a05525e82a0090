//! The default encapsulation (RFC 1483 4.1).
//!
//! | Octets | Content |
//! |---|---|
//! | 0 to 2 | LLC: AA AA 03 |
//! | 3 to 5 | OUI: 00 00 00 |
//! | 6 to 7 | EtherType: 08 00 |
//! | 8 on | the packet |

ghost use Rattle.std.specs.Prelude.{◌≡◌, ℕ, ◌+◌, ◌≤◌, ◌++◌, List, length, drop, IfOk, IsOkAnd};
ghost use Rattle.std.specs.Result.{result_err};
ghost use Rattle.flow_encaps.specs.Default.{default_payload, default_fault};

use thiserror::Error;

/// A decapsulation error: the first test that the payload of a frame fails, of the default
/// encapsulation (RFC 1483 4.1) or of a flow's (after RFC 1954).
#[derive(Clone, Copy, Debug, PartialEq, Eq, Error)]
pub enum EncapsFault {
    /// The payload has fewer octets than its encapsulation's header.
    #[error("shorter than its encapsulation's header")]
    Short,
    /// The LLC/SNAP header isn't that of an IPv4 packet; [`unwrap_default`] alone gives it.
    #[error("the LLC/SNAP header isn't that of IPv4")]
    BadSnap,
    /// A reserved field of a labelled frame isn't 0; [`unwrap_default`] never gives it.
    #[error("a reserved field isn't 0")]
    Reserved,
    /// A labelled frame's Total Length isn't the payload's; [`unwrap_default`] never gives it.
    #[error("Total Length isn't the payload's")]
    Length,
    /// A labelled frame's Checksum isn't its header's; [`unwrap_default`] never gives it.
    #[error("the checksum isn't the header's")]
    Checksum,
}

/// LLC, OUI and EtherType of an IPv4 packet.
const LLC_SNAP: [u8; 8] = [0xaa, 0xaa, 0x03, 0x00, 0x00, 0x00, 0x08, 0x00];

/// Writes the LLC/SNAP header and then `packet` to the front of `out`, and answers how many octets
/// those are: 8 more than the packet has.
pub fn wrap_default(packet: &[u8], out: &mut [u8]) -> usize
    requires { length packet.now + 8 ≤ length out.old }
    ensures len { result ≡ length packet.now + 8 }
    ensures written { out.new ≡ default_payload packet.now ++ drop result out.old }
{
    let end = packet.len() + 8;
    out[..8].copy_from_slice(&LLC_SNAP);
    out[8..end].copy_from_slice(packet);
    end
}

/// The packet behind the LLC/SNAP header. Refuses `Short` (under 8 octets) and then `BadSnap` (the
/// header is another one).
pub fn unwrap_default(payload: &[u8]) -> Result<&[u8], EncapsFault>
    ensures fault { result_err result ≡ default_fault payload.now }
    ensures ok { IfOk result (λ packet. payload.now ≡ default_payload packet.now) }
    ensures inverse { (packet : List ℕ) → payload.now ≡ default_payload packet → IsOkAnd result (λ found. found.now ≡ packet) }
{
    if payload.len() < 8 {
        return Err(EncapsFault::Short);
    }
    if !payload.starts_with(&LLC_SNAP) {
        return Err(EncapsFault::BadSnap);
    }
    Ok(&payload[8..])
}
