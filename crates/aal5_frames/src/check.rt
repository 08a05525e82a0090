//! Whether octets are a CPCS-PDU (I.363.5 9.2.1).

ghost use Rattle.std.specs.Prelude.{◌≡◌, ℕ, ◌+◌, ◌≤◌, ◌↔◌, take, length, IfOk};
ghost use Rattle.std.specs.Result.{result_err};
ghost use Rattle.aal5_frames.specs.Frame.{IsPdu, pdu_fault, length_field};

use crate::crc::crc32;
use crate::segmentation::MAX_FRAME;
use thiserror::Error;

/// An error of [`check_pdu`]: the first test that octets fail which aren't a CPCS-PDU (I.363.5
/// 9.2). Its greatest size, 1536 octets, is this project's own.
#[derive(Clone, Copy, Debug, PartialEq, Eq, Error)]
pub enum FrameFault {
    /// There are none.
    #[error("no octets")]
    Empty,
    /// They are no multiple of 48, or more than 1536.
    #[error("no multiple of 48 octets up to 1536")]
    Size,
    /// The common part indicator isn't 0.
    #[error("the common part indicator isn't 0")]
    Cpi,
    /// The Length field is 0, or leaves no pad of 0 to 47 octets.
    #[error("the Length field leaves no pad of 0 to 47 octets")]
    Length,
    /// The CRC field isn't the CRC of all octets before it.
    #[error("the CRC isn't right")]
    Crc,
}

/// The length of the payload, in octets, where the octets are a CPCS-PDU of their first ones. Refuses
/// `Empty`, `Size`, `Cpi`, `Length` and `Crc`, in this order.
pub fn check_pdu(octets: &[u8]) -> Result<usize, FrameFault>
    ensures ok { (n : ℕ) → (result ≡ Ok n) ↔ (IsPdu (take n octets.now) octets.now) }
    ensures refused { result_err result ≡ pdu_fault octets.now }
    ensures len { IfOk result (λ n. n ≡ length_field octets.now) }
    ensures within { IfOk result (λ n. n + 8 ≤ length octets.now) }
{
    let size = octets.len();
    if size == 0 {
        return Err(FrameFault::Empty);
    }
    if size % 48 != 0 || size > MAX_FRAME {
        return Err(FrameFault::Size);
    }
    if octets[size - 7] != 0 {
        return Err(FrameFault::Cpi);
    }
    let length = usize::from(u16::from_be_bytes([octets[size - 6], octets[size - 5]]));
    if length == 0 || size < length + 8 || length + 55 < size {
        return Err(FrameFault::Length);
    }
    let crc = u32::from_be_bytes([
        octets[size - 4],
        octets[size - 3],
        octets[size - 2],
        octets[size - 1],
    ]);
    if crc != crc32(&octets[..size - 4]) {
        return Err(FrameFault::Crc);
    }
    Ok(length)
}
