//! The numbers and the octets that a word spells.

ghost use Rattle.std.specs.Prelude.{◌≡◌, ◌<◌, ◌+◌, ◌-◌, ◌*◌, ◌/◌, ◌^◌, length, true, Some, IfOk, OnErr, IsSome};
ghost use Rattle.std.specs.Char.{digit_value, is_ascii_digit, is_ascii_hexdigit};
ghost use Rattle.std.specs.List.{list_all};
ghost use Rattle.std.specs.Option.{option_map};
ghost use Rattle.std.specs.Str.Parse.{digits_value};
ghost use Rattle.lab_text.specs.Forms.{number_in};
ghost use Rattle.lab_text.specs.Numeral.{number, below, is_number, hex_octets, is_hex, paired};

use net_types::OutOfMemory;
use std::alloc::Global;

fn are_digits(word: &[u8]) -> bool
    ensures { result ≡ list_all is_ascii_digit word.now }
{
    word.iter().all(|digit| digit.is_ascii_digit())
}

/// Whether `word` is a decimal number without a sign or a leading zero.
pub fn is_number(word: &[u8]) -> bool
    ensures { result ≡ is_number word.now }
{
    if word.is_empty() || !are_digits(word) {
        return false;
    }
    word.len() == 1 || word[0] != b'0'
}

/// Ten times `number` and the digit; `None` where it is more than `greatest`.
fn with_digit(number: u64, digit: u8, greatest: u64) -> Option<u64>
    requires { is_ascii_digit digit ≡ true }
    ensures { result ≡ below (greatest + 1) (Some (number * 10 + digit_value digit)) }
{
    let number = number.checked_mul(10)?.checked_add((digit - b'0') as u64)?;
    if number <= greatest {
        Some(number)
    } else {
        None
    }
}

/// The number that decimal digits spell; `None` where it is more than `greatest`.
fn decimal(digits: &[u8], greatest: u64) -> Option<u64>
    requires { list_all is_ascii_digit digits.now ≡ true }
    ensures { result ≡ below (greatest + 1) (Some (digits_value 10 digits.now)) }
{
    let mut number = 0;
    let mut left = digits;
    while let [digit, rest @ ..] = left {
        number = with_digit(number, *digit, greatest)?;
        left = rest;
    }
    Some(number)
}

/// The number that `word` spells in decimal, without a sign or a leading zero; `None` where it
/// spells none below 2 to the power of 32.
pub fn read_number(word: &[u8]) -> Option<u32>
    ensures { result ≡ below (2 ^ 32) (number word.now) }
{
    if !is_number(word) {
        return None;
    }
    u32::try_from(decimal(word, u32::MAX as u64)?).ok()
}

/// The number of 64 bits that `word` spells in decimal, without a sign or a leading zero; `None`
/// where it spells none below 2 to the power of 64.
pub fn long_number(word: &[u8]) -> Option<u64>
    ensures { result ≡ number_in 0 (2 ^ 64 - 1) word.now }
{
    if is_number(word) {
        decimal(word, u64::MAX)
    } else {
        None
    }
}

/// Each octet is looked at, also behind one that is no digit: so the machine looks at many at once.
fn are_hex_digits(word: &[u8]) -> bool
    ensures { result ≡ list_all is_ascii_hexdigit word.now }
{
    let mut all = true;
    for digit in word {
        all &= digit.is_ascii_hexdigit();
    }
    all
}

/// Whether `word` is an even number of hexadecimal digits of either case.
pub fn is_hex(word: &[u8]) -> bool
    ensures { result ≡ is_hex word.now }
{
    word.len() % 2 == 0 && are_hex_digits(word)
}

/// The value of a hexadecimal digit.
fn digit_value(digit: u8) -> u8
    requires { is_ascii_hexdigit digit ≡ true }
    ensures value { result ≡ digit_value digit }
    ensures small { result < 16 }
{
    match digit {
        b'0'..=b'9' => digit - b'0',
        b'a'..=b'f' => digit - b'a' + 10,
        _ => digit - b'A' + 10,
    }
}

/// Writes the octets that hexadecimal digits spell, two digits for each, over all of `octets`.
fn write_pairs(digits: &[u8], octets: &mut [u8])
    requires digits { list_all is_ascii_hexdigit digits.now ≡ true }
    requires room { length octets.old ≡ length digits.now / 2 }
    ensures { octets.new ≡ paired digits.now }
{
    for k in 0..octets.len() {
        octets[k] = 16 * digit_value(digits[2 * k]) + digit_value(digits[2 * k + 1]);
    }
}

/// The octets that hexadecimal digits of either case spell, two digits for each.
pub fn hex_pairs(alloc: Global, digits: &[u8]) -> Result<Vec<u8>, OutOfMemory>
    requires { list_all is_ascii_hexdigit digits.now ≡ true }
    ensures { IfOk result (λ octets. octets.items ≡ paired digits.now) }
{
    let mut octets = vec![in alloc; 0; digits.len() / 2]?;
    write_pairs(digits, octets.as_mut_slice());
    Ok(octets)
}

/// The octets that `word` spells in hexadecimal, two digits of either case for each; `None` where
/// it isn't an even number of such digits.
pub fn read_hex(alloc: Global, word: &[u8]) -> Result<Option<Vec<u8>>, OutOfMemory>
    ensures octets { IfOk result (λ found. option_map (λ octets. octets.items) found ≡ hex_octets word.now) }
    ensures memory { OnErr result (IsSome (hex_octets word.now)) }
{
    if !is_hex(word) {
        return Ok(None);
    }
    Ok(Some(hex_pairs(alloc, word)?))
}
