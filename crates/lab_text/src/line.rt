//! Lines and their words.

ghost use Rattle.std.specs.Prelude.{◌≡◌, ◌<◌, ◌≤◌, ◌∷◌, [], length, false, IfOk, IfErr, IfSome, IfNone};
ghost use Rattle.std.specs.List.{list_all, prefix_len, position_or_len};
ghost use Rattle.std.specs.Result.{result_err};
ghost use Rattle.lab_text.specs.Words.{is_blank, line_text, words, is_blank_line, is_script_octet};
ghost use Rattle.lab_text.specs.Line.{holds_octet, input_limit, is_want_of_memory, line_fault};

use memchr::memchr2;
use net_types::OutOfMemory;

/// An error of reading a line of text: the first test that it fails, or want of memory. The tests
/// are this project's own.
#[derive(Clone, Copy, Debug, PartialEq, Eq)]
pub enum LineFault {
    /// The line, its end included, holds the octet of the input numbered 16,777,217.
    ScriptTooLong,
    /// The line has more than 4,096 octets, LF or CR LF not counted.
    LineTooLong,
    /// An octet of the line is neither 20 to 7E hexadecimal nor a tab.
    BadByte,
    /// The line has another number of words than it should.
    Arity,
    /// A word isn't an even number of hexadecimal digits.
    BadHex,
    /// No memory was left for what was read.
    OutOfMemory(OutOfMemory),
}

/// The number of the octet that no input may hold: the greatest has 2 to the power of 24. Nothing is
/// read past this one.
pub const INPUT_LIMIT: usize = 16_777_217;

/// The most octets of a line, its end not counted.
pub const LINE_LIMIT: usize = 4096;

/// Whether words end at `octet`: a space or a tab.
fn is_blank(octet: u8) -> bool
    ensures { result ≡ is_blank octet }
{
    octet == b' ' || octet == b'\t'
}

/// Whether `octet` may stand in a line: 20 to 7E hexadecimal or a tab.
fn is_script_octet(octet: u8) -> bool
    ensures { result ≡ is_script_octet octet }
{
    matches!(octet, 0x20..=0x7e | b'\t')
}

/// How many blanks `octets` begins with.
fn blanks_in_front(octets: &[u8]) -> usize
    ensures count { result ≡ prefix_len is_blank octets.now }
    ensures bound { result ≤ length octets.now }
{
    octets.iter().take_while(|octet| is_blank(**octet)).count()
}

/// How many octets stand before the first blank of `octets`.
fn octets_before_blank(octets: &[u8]) -> usize
    ensures count { result ≡ position_or_len is_blank octets.now }
    ensures bound { result ≤ length octets.now }
{
    match memchr2(b' ', b'\t', octets) {
        Some(place) => place,
        None => octets.len(),
    }
}

/// The line without the LF or the CR LF at its end.
pub fn line_text(line: &[u8]) -> &[u8]
    ensures { result.now ≡ line_text line.now }
{
    if line.ends_with(b"\r\n") {
        &line[..line.len() - 2]
    } else if line.ends_with(b"\n") {
        &line[..line.len() - 1]
    } else {
        line
    }
}

/// The first word of `octets` and what stands behind it; `None` where there is no word.
pub fn split_word(octets: &[u8]) -> Option<(&[u8], &[u8])>
    ensures none { IfNone result (words octets.now ≡ []) }
    ensures some { IfSome result (λ found. words octets.now ≡ found.0.now ∷ words found.1.now) }
    ensures shorter { IfSome result (λ found. length found.1.now < length octets.now) }
{
    let text = &octets[blanks_in_front(octets)..];
    if text.is_empty() {
        return None;
    }
    Some(text.split_at(octets_before_blank(text)))
}

/// Whether the text of a line has no word, or a first word that begins with `#`.
pub fn is_blank_line(text: &[u8]) -> bool
    ensures { result ≡ is_blank_line text.now }
{
    match split_word(text) {
        None => true,
        Some((word, _)) => word.starts_with(b"#"),
    }
}

/// Whether `octets`, which `before` octets of the input stand before, hold the first octet past the
/// greatest input.
fn passes_limit(before: u32, octets: &[u8]) -> bool
    ensures { result ≡ holds_octet before octets.now input_limit }
{
    let before = before as usize;
    before < INPUT_LIMIT && INPUT_LIMIT - before <= octets.len()
}

/// Whether all of `octets` may stand in a line: each is 20 to 7E hexadecimal or a tab. Each is looked
/// at, also behind one that may not: so the machine looks at many at once.
pub fn are_script_octets(octets: &[u8]) -> bool
    ensures { result ≡ list_all is_script_octet octets.now }
{
    let mut all = true;
    for octet in octets {
        all &= is_script_octet(*octet);
    }
    all
}

/// The text of `line`, which may have an LF at its end and which `before` octets of the input stand
/// before. Refuses `ScriptTooLong`, `LineTooLong` and `BadByte`, in this order, and takes no memory.
pub fn check_line(before: u32, line: &[u8]) -> Result<&[u8], LineFault>
    ensures text { IfOk result (λ text. text.now ≡ line_text line.now) }
    ensures fault { result_err result ≡ line_fault before line.now }
    ensures no_memory { IfErr result (λ fault. is_want_of_memory fault ≡ false) }
{
    if passes_limit(before, line) {
        return Err(LineFault::ScriptTooLong);
    }
    let text = line_text(line);
    if text.len() > LINE_LIMIT {
        return Err(LineFault::LineTooLong);
    }
    if !are_script_octets(text) {
        return Err(LineFault::BadByte);
    }
    Ok(text)
}
