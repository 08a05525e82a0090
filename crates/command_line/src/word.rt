//! One word of the command line.

ghost use Rattle.std.specs.Prelude.{◌≡◌, List, ℕ, string_bytes};

use std::convert::AsStr;
use std::marker::Model;

/// A command-line argument (a word), seen in contracts as the list of its octets.
#[derive(Debug, Drop)]
pub struct Word {
    text: String,
}

impl Model for Word {
    ghost use Rattle.std.specs.Prelude.{List, ℕ, string_bytes};

    ghost Value = { List ℕ };

    ghost view = { λ w. string_bytes w.text };
}

impl Word {
    /// This word.
    pub fn new(text: String) -> Word
        ensures { result ≡ string_bytes text }
    {
        Word { text }
    }

    /// Its text.
    pub fn as_str(&self) -> &str
        ensures { result.now ≡ self.now }
    {
        self.text.as_str()
    }
}

impl AsStr for Word {
    ghost text = { λ w. w };

    fn as_str(&self) -> &str {
        self.text.as_str()
    }
}
