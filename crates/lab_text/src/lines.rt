//! The lines of a text.

ghost use Rattle.std.specs.Prelude.{◌≡◌, ◌+◌, ◌<◌, ◌++◌, ◌∷◌, ◌==◌, length, position, IfSome};
ghost use Rattle.lab_text.specs.Lines.{lines_of};

use memchr::memchr;

/// Where the first LF of `octets` stands, if there is one.
pub fn line_feed(octets: &[u8]) -> Option<usize>
    ensures place { result ≡ position (λ octet. octet == 10) octets.now }
    ensures within { IfSome result (λ place. place < length octets.now) }
{
    memchr(b'\n', octets)
}

/// The first line of `octets`, with its LF where it has one, and what stands behind it.
pub fn split_line(octets: &[u8]) -> (&[u8], &[u8])
    requires { 0 < length octets.now }
    ensures lines { lines_of octets.now ≡ result.0.now ∷ lines_of result.1.now }
    ensures some { 0 < length result.0.now }
    ensures all { length octets.now ≡ length result.0.now + length result.1.now }
{
    match line_feed(octets) {
        Some(place) => octets.split_at(place + 1),
        None => octets.split_at(octets.len()),
    }
}
