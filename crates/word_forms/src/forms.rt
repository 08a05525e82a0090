//! The forms of words that say one value.

ghost use Rattle.std.specs.Prelude.{◌≡◌, ◌≤◌, ◌<◌, ◌==◌, length, position, IfSome};
ghost use Rattle.std.specs.Option.{option_map};
ghost use Rattle.lab_text.specs.Forms.{number_in, parts, address_of, prefix_of};

use lab_text::read_number;
use net_types::{Addr, Prefix};

/// The number that `word` spells in decimal, where it is within these bounds.
pub fn number_in(word: &[u8], least: u32, greatest: u32) -> Option<u32>
    ensures number { result ≡ number_in least greatest word.now }
    ensures within { IfSome result (λ n. (least ≤ n) × (n ≤ greatest)) }
{
    match read_number(word) {
        Some(number) if least <= number && number <= greatest => Some(number),
        _ => None,
    }
}

fn place_of(word: &[u8], sign: u8) -> Option<usize>
    ensures place { result ≡ position (λ octet. octet == sign) word.now }
    ensures within { IfSome result (λ place. place < length word.now) }
{
    word.iter().position(|octet| *octet == sign)
}

/// What stands before and behind the first such sign of `word`; `None` where it has none.
pub fn split_at_sign(word: &[u8], sign: u8) -> Option<(&[u8], &[u8])>
    ensures { option_map (λ halves. (halves.0.now, halves.1.now)) result ≡ parts sign word.now }
{
    match place_of(word, sign) {
        Some(place) => Some((&word[..place], &word[place + 1..])),
        None => None,
    }
}

fn octet_of(word: &[u8]) -> Option<u8>
    ensures { result ≡ number_in 0 255 word.now }
{
    match number_in(word, 0, 255) {
        Some(number) => Some(number as u8),
        None => None,
    }
}

/// An address: four numbers 0 to 255 with dots.
pub fn address_of(word: &[u8]) -> Option<Addr>
    ensures { result ≡ address_of word.now }
{
    let (first, others) = split_at_sign(word, b'.')?;
    let first = octet_of(first)?;
    let (second, others) = split_at_sign(others, b'.')?;
    let second = octet_of(second)?;
    let (third, fourth) = split_at_sign(others, b'.')?;
    let third = octet_of(third)?;
    let fourth = octet_of(fourth)?;
    Some(Addr(u32::from_be_bytes([first, second, third, fourth])))
}

/// A prefix: an address without host bits, a slash and a length of 0 to 32 bits.
pub fn prefix_of(word: &[u8]) -> Option<Prefix>
    ensures { result ≡ prefix_of word.now }
{
    let (addr, len) = split_at_sign(word, b'/')?;
    let addr = address_of(addr)?;
    let len = number_in(len, 0, 32)?;
    match Prefix::new(addr, len as u8) {
        Ok(prefix) => Some(prefix),
        Err(_) => None,
    }
}
