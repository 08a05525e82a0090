//! Numbers and padded octets.

ghost use Rattle.std.specs.Prelude.{◌≡◌, ◌≤◌, ◌++◌, length, replicate, OnOk, OnErr};
ghost use Rattle.pcapng_blocks.specs.Blocks.{number_16, number_32, pad_length, padded};
ghost use Rattle.lab_text.specs.Kept.{BreaksOff};

use byteorder::{ByteOrder, LittleEndian};
use net_types::OutOfMemory;

/// How many octets 0 fill this many up to a multiple of four.
pub(crate) fn pad_length(len: usize) -> usize
    ensures pad { result ≡ pad_length len }
    ensures few { result ≤ 3 }
{
    (4 - len % 4) % 4
}

pub(crate) fn put_u16(out: &mut Vec<u8>, number: u16) -> Result<(), OutOfMemory>
    ensures ok { OnOk result (out.new.items ≡ out.old.items ++ number_16 number) }
    ensures err { OnErr result (out.new.items ≡ out.old.items) }
{
    let mut field = [0; 2];
    LittleEndian::write_u16(&mut field, number);
    out.extend_from_slice(&field)?;
    Ok(())
}

pub(crate) fn put_u32(out: &mut Vec<u8>, number: u32) -> Result<(), OutOfMemory>
    ensures ok { OnOk result (out.new.items ≡ out.old.items ++ number_32 number) }
    ensures err { OnErr result (out.new.items ≡ out.old.items) }
{
    let mut field = [0; 4];
    LittleEndian::write_u32(&mut field, number);
    out.extend_from_slice(&field)?;
    Ok(())
}

/// Appends so many octets 0.
#[tactic(auto, using(crate::proofs::Lengths::zeros))]
fn put_zeros(out: &mut Vec<u8>, count: usize) -> Result<(), OutOfMemory>
    requires { count ≤ 3 }
    ensures ok { OnOk result (out.new.items ≡ out.old.items ++ replicate count 0) }
    ensures err { OnErr result (out.new.items ≡ out.old.items) }
{
    out.extend_from_slice(&[0; 3][..count])?;
    Ok(())
}

/// Appends octets, and octets 0 up to a multiple of four.
pub(crate) fn put_padded(out: &mut Vec<u8>, octets: &[u8]) -> Result<(), OutOfMemory>
    ensures ok { OnOk result (out.new.items ≡ out.old.items ++ padded octets.now) }
    ensures err { OnErr result (BreaksOff out.old.items (out.old.items ++ padded octets.now) out.new.items) }
{
    out.extend_from_slice(octets)?;
    put_zeros(out, pad_length(octets.len()))
}
