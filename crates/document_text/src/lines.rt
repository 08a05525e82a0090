//! The lines of a document.

ghost use Rattle.std.specs.Prelude.{◌≡◌, ◌++◌, ◌∷◌, [], length, slice_get, option_copied, OnOk, OnErr};
ghost use Rattle.script_model.specs.Documents.{rule_count, script_texts};

use net_types::{Octets, OutOfMemory};
use std::alloc::Global;
use std::marker::Model;

/// Texts in their order.
#[derive(Debug, Drop)]
pub(crate) struct Texts {
    alloc: Global,
    texts: Vec<Octets>,
}

impl Model for Texts {
    ghost use Rattle.std.specs.Prelude.{List, ℕ};

    ghost Value = { List (List ℕ) };

    ghost view = { λ t. t.texts.items };
}

impl Texts {
    /// No text yet.
    pub(crate) fn new(alloc: Global) -> Texts
        ensures { result ≡ [] }
    {
        Texts {
            alloc,
            texts: Vec::new(alloc),
        }
    }

    /// How many there are.
    pub(crate) fn len(&self) -> usize
        ensures { result ≡ length self.now }
    {
        self.texts.len()
    }

    /// The octets of the text at `place`, from 0; `None` exactly where `place` is [`Texts::len`] or
    /// above it.
    fn at(&self, place: usize) -> Option<&[u8]>
        ensures { option_copied result ≡ slice_get self.now place }
    {
        if place < self.texts.len() {
            Some(self.texts[place].as_slice())
        } else {
            None
        }
    }

    /// Puts a text behind the others. Want of memory changes nothing.
    pub(crate) fn push(&mut self, text: &str) -> Result<(), OutOfMemory>
        ensures ok { OnOk result (self.new ≡ self.old ++ text.now ∷ []) }
        ensures err { OnErr result (self.new ≡ self.old) }
    {
        let octets = Vec::from_slice(self.alloc, text.as_bytes())?;
        self.texts.push(Octets::new(octets))?;
        Ok(())
    }
}

/// The lines of a TOML document in their order, each without an end: those of `rules`, of
/// `topology` and of `events`. This project's own.
#[derive(Debug, Drop)]
pub struct Lines {
    texts: Texts,
    rules: Option<usize>,
}

impl Model for Lines {
    ghost use Rattle.script_model.specs.Documents.{Lines as Held};

    ghost Value = { Held };

    ghost view = { λ l. record { rules = l.rules; texts = l.texts } };
}

impl Lines {
    /// These lines, the first `rules` of which are those of that key, where the document has it.
    pub(crate) fn new(texts: Texts, rules: Option<usize>) -> Lines
        ensures { result ≡ record { rules = rules; texts = texts } }
    {
        Lines { texts, rules }
    }

    /// How many there are.
    pub fn len(&self) -> usize
        ensures { result ≡ length self.now.texts }
    {
        self.texts.len()
    }

    /// How many of them, the first ones, are those of `rules`; `None` exactly where the document has no
    /// such key.
    pub fn rules(&self) -> Option<usize>
        ensures { result ≡ self.now.rules }
    {
        self.rules
    }

    /// The same, and 0 where the document has no such key.
    pub fn rule_len(&self) -> usize
        ensures { result ≡ rule_count self.now }
    {
        match self.rules {
            Some(count) => count,
            None => 0,
        }
    }

    /// The octets of the line at `place`, from 0; `None` exactly where `place` is [`Lines::len`] or
    /// above it.
    pub fn at(&self, place: usize) -> Option<&[u8]>
        ensures { option_copied result ≡ slice_get self.now.texts place }
    {
        self.texts.at(place)
    }

    /// How many stand behind those of `rules`: the lines of a script.
    pub fn script_len(&self) -> usize
        ensures { result ≡ length (script_texts self.now) }
    {
        self.texts.len().saturating_sub(self.rule_len())
    }

    /// The octets of the line of the script at `place`, from 0; `None` exactly where `place` is
    /// [`Lines::script_len`] or above it.
    pub fn script_at(&self, place: usize) -> Option<&[u8]>
        ensures { option_copied result ≡ slice_get (script_texts self.now) place }
    {
        let count = self.texts.len();
        let rules = self.rule_len();
        let behind = count.saturating_sub(rules);
        if place < behind {
            self.texts.at(rules + place)
        } else {
            None
        }
    }
}
