//! Text that grows, and the forms of numbers and octets in it.

ghost use Rattle.std.specs.Prelude.{◌≡◌, ◌++◌, [], ◌<◌, ◌*◌, length, OnOk, OnErr, decimal};
ghost use Rattle.lab_text.specs.Text.{hex_digits, hex_digit};

use itoa::Buffer;
use net_types::{Octets, OutOfMemory};
use std::alloc::Global;
use std::marker::Model;

/// How many octets a text has room for from the first on: most lines have no more.
const LINE_ROOM: usize = 256;

/// A string builder (a text), in octets: it grows at its end. Where memory is wanting it stays as
/// it was.
#[derive(Debug, Drop)]
pub struct Text {
    octets: Vec<u8>,
}

impl Model for Text {
    ghost use Rattle.std.specs.Prelude.{List, ℕ};

    ghost Value = { List ℕ };

    ghost view = { λ t. t.octets.items };
}

fn hex_digit(value: u8) -> u8
    requires { value < 16 }
    ensures { result ≡ hex_digit value }
{
    if value < 10 {
        b'0' + value
    } else {
        b'a' - 10 + value
    }
}

/// Writes two lower-case digits for each octet over all of `digits`.
fn write_hex(octets: &[u8], digits: &mut [u8])
    requires { length digits.old ≡ 2 * length octets.now }
    ensures { digits.new ≡ hex_digits octets.now }
{
    for k in 0..octets.len() {
        digits[2 * k] = hex_digit(octets[k] / 16);
        digits[2 * k + 1] = hex_digit(octets[k] % 16);
    }
}

/// Takes the room for a line where there is none.
fn take_room(octets: &mut Vec<u8>) -> Result<(), OutOfMemory>
    ensures { octets.new.items ≡ octets.old.items }
{
    if octets.capacity() == 0 {
        octets.reserve(LINE_ROOM)?;
    }
    Ok(())
}

/// Appends `octets`.
fn push(out: &mut Vec<u8>, octets: &[u8]) -> Result<(), OutOfMemory>
    ensures ok { OnOk result (out.new.items ≡ out.old.items ++ octets.now) }
    ensures err { OnErr result (out.new.items ≡ out.old.items) }
{
    take_room(out)?;
    out.extend_from_slice(octets)?;
    Ok(())
}

fn push_hex(out: &mut Vec<u8>, octets: &[u8]) -> Result<(), OutOfMemory>
    ensures ok { OnOk result (out.new.items ≡ out.old.items ++ hex_digits octets.now) }
    ensures err { OnErr result (out.new.items ≡ out.old.items) }
{
    let room = 2 * octets.len();
    let start = out.len();
    out.reserve(room)?;
    out.resize(start + room, 0)?;
    write_hex(octets, &mut out[start..]);
    Ok(())
}

impl Text {
    /// No text yet.
    pub fn new(alloc: Global) -> Text
        ensures { result ≡ [] }
    {
        Text {
            octets: Vec::new(alloc),
        }
    }

    /// The octets so far.
    pub fn as_slice(&self) -> &[u8]
        ensures { result.now ≡ self.now }
    {
        self.octets.as_slice()
    }

    /// Gives the octets up without taking memory.
    pub fn into_octets(self) -> Octets
        ensures { result ≡ self }
    {
        let Text { octets } = self;
        Octets::new(octets)
    }

    /// Appends `text`.
    pub fn text(&mut self, text: &str) -> Result<(), OutOfMemory>
        ensures ok { OnOk result (self.new ≡ self.old ++ text.now) }
        ensures err { OnErr result (self.new ≡ self.old) }
    {
        push(&mut self.octets, text.as_bytes())
    }

    /// Appends `octets` as they are.
    pub fn octets(&mut self, octets: &[u8]) -> Result<(), OutOfMemory>
        ensures ok { OnOk result (self.new ≡ self.old ++ octets.now) }
        ensures err { OnErr result (self.new ≡ self.old) }
    {
        push(&mut self.octets, octets)
    }

    /// Appends `number` in decimal.
    pub fn number(&mut self, number: u64) -> Result<(), OutOfMemory>
        ensures ok { OnOk result (self.new ≡ self.old ++ decimal number) }
        ensures err { OnErr result (self.new ≡ self.old) }
    {
        push(&mut self.octets, Buffer::new().format(number).as_bytes())
    }

    /// Appends `octets` in lower-case hexadecimal.
    pub fn hex(&mut self, octets: &[u8]) -> Result<(), OutOfMemory>
        ensures ok { OnOk result (self.new ≡ self.old ++ hex_digits octets.now) }
        ensures err { OnErr result (self.new ≡ self.old) }
    {
        push_hex(&mut self.octets, octets)
    }
}
