//! The forms of words that say one value.

ghost use Rattle.std.specs.Prelude.{◌≡◌, ◌≤◌, IfOk, IfSome};
ghost use Rattle.lab_text.specs.Forms.{number_in};
ghost use Rattle.console_model.specs.Law.{IsEnd, IsPort};
ghost use Rattle.console_model.specs.Lines.{end_of, number, port, side_of};

use console_model::{ConsoleFault, Side};
use lab_text::read_number;
use net_types::{Channel, End, LAST_PORT, PortNo};

/// The greatest number of a port for a link, and how many a switch has at most.
pub(crate) const GREATEST_PORT: u32 = LAST_PORT as u32;

/// The greatest VCI (I.361 2.2).
const GREATEST_VCI: u32 = 65_535;

/// The number that `word` spells in decimal, where it is within these bounds.
fn number_in(word: &[u8], least: u32, greatest: u32) -> Option<u32>
    ensures number { result ≡ number_in least greatest word.now }
    ensures within { IfSome result (λ n. (least ≤ n) × (n ≤ greatest)) }
{
    match read_number(word) {
        Some(number) if least <= number && number <= greatest => Some(number),
        _ => None,
    }
}

/// A decimal number within these bounds. Refuses `BadNumber`.
pub(crate) fn number(word: &[u8], least: u32, greatest: u32) -> Result<u32, ConsoleFault>
    ensures number { result ≡ number least greatest word.now }
    ensures within { IfOk result (λ n. (least ≤ n) × (n ≤ greatest)) }
{
    match number_in(word, least, greatest) {
        Some(number) => Ok(number),
        None => Err(ConsoleFault::BadNumber),
    }
}

/// A port, 1 to 8. Refuses `BadNumber`.
pub(crate) fn port(word: &[u8]) -> Result<PortNo, ConsoleFault>
    ensures port { result ≡ port word.now }
    ensures within { IfOk result IsPort }
{
    let number = number(word, 1, GREATEST_PORT)?;
    Ok(PortNo(number as u8))
}

/// A port and a VCI of it, whose VPI is 0. Refuses `BadNumber`.
pub(crate) fn end_of(port_word: &[u8], vci: &[u8]) -> Result<End, ConsoleFault>
    ensures end { result ≡ end_of port_word.now vci.now }
    ensures within { IfOk result IsEnd }
{
    let port = port(port_word)?;
    let vci = number(vci, 0, GREATEST_VCI)?;
    Ok(End {
        port,
        channel: Channel {
            vpi: 0,
            vci: vci as u16,
        },
    })
}

/// `c` or `s`. Refuses `BadPlace`.
pub(crate) fn side_of(word: &[u8]) -> Result<Side, ConsoleFault>
    ensures { result ≡ side_of word.now }
{
    if word == "c".as_bytes() {
        Ok(Side::Console)
    } else if word == "s".as_bytes() {
        Ok(Side::Switch)
    } else {
        Err(ConsoleFault::BadPlace)
    }
}
