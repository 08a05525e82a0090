//! Options of blocks.

ghost use Rattle.std.specs.Prelude.{◌≡◌, ◌≤◌, ◌++◌, min, length, OnOk, OnErr};
ghost use Rattle.pcapng_blocks.specs.Blocks.{opt_endofopt, option_code, option_octets};
ghost use Rattle.pcapng_blocks.specs.Lengths.{option_length, padded_length};
ghost use Rattle.lab_text.specs.Kept.{BreaksOff};

use crate::fields::{pad_length, put_padded, put_u16};
use net_types::OutOfMemory;

/// The most octets of a value.
const MOST_OCTETS: usize = 65_535;

/// An option code of pcapng (draft-ietf-opsawg-pcapng): what an option of a block tells.
#[derive(Clone, Copy, Debug, PartialEq, Eq)]
pub enum OptionCode {
    /// A text on the block.
    Comment,
    /// The name of an interface.
    InterfaceName,
    /// A text on an interface.
    InterfaceDescription,
    /// The application that wrote the section.
    UserApplication,
    /// The unit of an interface's times.
    TimestampResolution,
}

fn number_of(code: OptionCode) -> u16
    ensures { result ≡ option_code code }
{
    match code {
        OptionCode::Comment => 1,
        OptionCode::InterfaceName => 2,
        OptionCode::InterfaceDescription => 3,
        OptionCode::UserApplication => 4,
        OptionCode::TimestampResolution => 9,
    }
}

/// How many octets so many become where they are filled up to a multiple of four.
pub(crate) fn padded_length(len: usize) -> usize
    requires { len ≤ 16777216 }
    ensures { result ≡ padded_length len }
{
    len + pad_length(len)
}

/// How many octets an option has whose value has so many.
pub(crate) fn option_length(len: usize) -> usize
    ensures len { result ≡ option_length len }
    ensures few { result ≤ 65542 }
{
    4 + padded_length(MOST_OCTETS.min(len))
}

/// Appends an option. Of a value of more than 65,535 octets it holds these.
pub(crate) fn put_option(
    out: &mut Vec<u8>,
    code: OptionCode,
    value: &[u8],
) -> Result<(), OutOfMemory>
    ensures ok { OnOk result (out.new.items ≡ out.old.items ++ option_octets (record { code = code; value = value.now })) }
    ensures err { OnErr result (BreaksOff out.old.items (out.old.items ++ option_octets (record { code = code; value = value.now })) out.new.items) }
{
    let held = MOST_OCTETS.min(value.len());
    put_u16(out, number_of(code))?;
    put_u16(out, held as u16)?;
    put_padded(out, &value[..held])?;
    Ok(())
}

/// Appends the end of a list of options.
pub(crate) fn put_end_of_options(out: &mut Vec<u8>) -> Result<(), OutOfMemory>
    ensures ok { OnOk result (out.new.items ≡ out.old.items ++ opt_endofopt) }
    ensures err { OnErr result (BreaksOff out.old.items (out.old.items ++ opt_endofopt) out.new.items) }
{
    put_u16(out, 0)?;
    put_u16(out, 0)
}
