//! Lines that hold one word of hexadecimal.

ghost use Rattle.std.specs.Prelude.{◌≡◌, true, false, Ok, Err, IsOk, IfOk};
ghost use Rattle.std.specs.Option.{option_map};
ghost use Rattle.lab_text.specs.Line.{hex_line, hex_word, is_want_of_memory};
ghost use Rattle.lab_text.specs.Numeral.{hex_octets};
ghost use Rattle.lab_text.specs.declared.line.LineFault.{LineFault};

use crate::line::{LineFault, check_line, is_blank_line, split_word};
use crate::numeral::read_hex;
use std::alloc::Global;

/// The octets that `word` spells in hexadecimal. Refuses `BadHex`, whether memory is left or not.
fn hex_word(alloc: Global, word: &[u8]) -> Result<Option<Vec<u8>>, LineFault>
    ensures octets { IfOk result (λ found. hex_word (hex_octets word.now) ≡ Ok (option_map (λ octets. octets.items) found)) }
    ensures refused { (fault : LineFault) → hex_word (hex_octets word.now) ≡ Err fault → result ≡ Err fault }
    ensures only { (fault : LineFault) → result ≡ Err fault → is_want_of_memory fault ≡ false → hex_word (hex_octets word.now) ≡ Err fault }
    ensures memory { (fault : LineFault) → result ≡ Err fault → is_want_of_memory fault ≡ true → IsOk (hex_word (hex_octets word.now)) }
{
    match read_hex(alloc, word) {
        Ok(Some(octets)) => Ok(Some(octets)),
        Ok(None) => Err(LineFault::BadHex),
        Err(error) => Err(LineFault::OutOfMemory(error)),
    }
}

/// The octets that the one word of `line` spells in hexadecimal; `None` where the line is blank:
/// without words or with a first word that begins with `#`. `line` may have an LF at its end, and
/// `before` octets of the input stand before it. Refuses `ScriptTooLong`, `LineTooLong`, `BadByte`,
/// `Arity` and `BadHex`, in this order, whether memory is left or not.
pub fn read_hex_line(alloc: Global, before: u32, line: &[u8]) -> Result<Option<Vec<u8>>, LineFault>
    ensures octets { IfOk result (λ found. hex_line before line.now ≡ Ok (option_map (λ octets. octets.items) found)) }
    ensures refused { (fault : LineFault) → hex_line before line.now ≡ Err fault → result ≡ Err fault }
    ensures only { (fault : LineFault) → result ≡ Err fault → is_want_of_memory fault ≡ false → hex_line before line.now ≡ Err fault }
    ensures memory { (fault : LineFault) → result ≡ Err fault → is_want_of_memory fault ≡ true → IsOk (hex_line before line.now) }
{
    let text = check_line(before, line)?;
    if is_blank_line(text) {
        return Ok(None);
    }
    let Some((word, rest)) = split_word(text) else {
        return Ok(None);
    };
    if split_word(rest).is_some() {
        return Err(LineFault::Arity);
    }
    hex_word(alloc, word)
}
