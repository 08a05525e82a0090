//! The forms of words that say one value.

ghost use Rattle.std.specs.Prelude.{◌≡◌, true, IfOk};
ghost use Rattle.std.specs.Char.{is_ascii_hexdigit};
ghost use Rattle.std.specs.List.{list_all};
ghost use Rattle.std.specs.Option.{option_map};
ghost use Rattle.lab_text.specs.Forms.{is_name, is_letter, is_name_octet};
ghost use Rattle.lab_text.specs.Numeral.{paired};
ghost use Rattle.script_model.specs.Forms.{NameWord, NameOrAll, AddressWord, PrefixWord, NumberWord, HexWord, PayloadWord, read};
ghost use Rattle.script_model.specs.world_model.Conditions.{IsPort, IsWithin};
ghost use Rattle.script_words.specs.Faults.{ok_as};

use aal5_frames::GREATEST_PAYLOAD;
use lab_text::is_hex;
use net_types::{Addr, LAST_PORT, PortNo, Prefix};
use script_model::LineRefusal;
use word_forms::{address_of, number_in, prefix_of};

fn is_letter(octet: u8) -> bool
    ensures { result ≡ is_letter octet }
{
    octet.is_ascii_lowercase()
}

fn is_name_octet(octet: u8) -> bool
    ensures { result ≡ is_name_octet octet }
{
    is_letter(octet) || octet.is_ascii_digit()
}

fn are_name_octets(word: &[u8]) -> bool
    ensures { result ≡ list_all is_name_octet word.now }
{
    word.iter().all(|octet| is_name_octet(*octet))
}

/// Whether `word` is a name: 1 to 16 lower-case letters and digits, a letter first.
pub fn is_name(word: &[u8]) -> bool
    ensures { result ≡ is_name word.now }
{
    1 <= word.len() && word.len() <= 16 && is_letter(word[0]) && are_name_octets(word)
}

/// A name. Refuses `BadName`.
pub fn read_name(word: &[u8]) -> Result<&[u8], LineRefusal>
    ensures { ok_as (λ name. name.now) result ≡ read NameWord word.now }
{
    if is_name(word) {
        Ok(word)
    } else {
        Err(LineRefusal::BadName)
    }
}

/// A name, or `None` of `*`. Refuses `BadName`.
pub fn read_name_or_all(word: &[u8]) -> Result<Option<&[u8]>, LineRefusal>
    ensures { ok_as (λ name. option_map (λ found. found.now) name) result ≡ read NameOrAll word.now }
{
    if word == "*".as_bytes() {
        Ok(None)
    } else if is_name(word) {
        Ok(Some(word))
    } else {
        Err(LineRefusal::BadName)
    }
}

/// An IPv4 address. Refuses `BadAddress`.
pub fn read_address(word: &[u8]) -> Result<Addr, LineRefusal>
    ensures { result ≡ read AddressWord word.now }
{
    match address_of(word) {
        Some(address) => Ok(address),
        None => Err(LineRefusal::BadAddress),
    }
}

/// An IPv4 prefix. Refuses `BadPrefix`.
pub fn read_prefix(word: &[u8]) -> Result<Prefix, LineRefusal>
    ensures { result ≡ read PrefixWord word.now }
{
    match prefix_of(word) {
        Some(prefix) => Ok(prefix),
        None => Err(LineRefusal::BadPrefix),
    }
}

/// A decimal number within these bounds. Refuses `BadNumber`.
pub fn read_number_in(word: &[u8], least: u32, greatest: u32) -> Result<u32, LineRefusal>
    ensures number { result ≡ read (NumberWord least greatest) word.now }
    ensures within { IfOk result (λ n. IsWithin least greatest n) }
{
    match number_in(word, least, greatest) {
        Some(number) => Ok(number),
        None => Err(LineRefusal::BadNumber),
    }
}

/// A port, 1 to 8. Refuses `BadNumber`.
pub fn read_port(word: &[u8]) -> Result<PortNo, LineRefusal>
    ensures port { ok_as (λ port. port.0) result ≡ read (NumberWord 1 8) word.now }
    ensures within { IfOk result (λ port. IsPort port) }
{
    let port = read_number_in(word, 1, LAST_PORT as u32)?;
    Ok(PortNo(port as u8))
}

/// A time in ticks, 1 to 65,535. Refuses `BadNumber`.
pub fn read_time(word: &[u8]) -> Result<u16, LineRefusal>
    ensures ticks { result ≡ read (NumberWord 1 65535) word.now }
    ensures within { IfOk result (λ ticks. IsWithin 1 65535 ticks) }
{
    let ticks = read_number_in(word, 1, 65_535)?;
    Ok(ticks as u16)
}

/// The digits of octets in hexadecimal. Refuses `BadHex`.
pub fn read_digits(word: &[u8]) -> Result<&[u8], LineRefusal>
    ensures octets { ok_as (λ digits. paired digits.now) result ≡ read HexWord word.now }
    ensures digits { IfOk result (λ digits. list_all is_ascii_hexdigit digits.now ≡ true) }
{
    if is_hex(word) {
        Ok(word)
    } else {
        Err(LineRefusal::BadHex)
    }
}

/// The digits of a forged frame's payload in hexadecimal, at most 1,528 octets. Refuses `BadHex` and
/// then `BadLength`.
pub fn read_payload_digits(word: &[u8]) -> Result<&[u8], LineRefusal>
    ensures octets { ok_as (λ digits. paired digits.now) result ≡ read PayloadWord word.now }
    ensures digits { IfOk result (λ digits. list_all is_ascii_hexdigit digits.now ≡ true) }
{
    if !is_hex(word) {
        Err(LineRefusal::BadHex)
    } else if GREATEST_PAYLOAD < word.len() / 2 {
        Err(LineRefusal::BadLength)
    } else {
        Ok(word)
    }
}
