//! The words of a command that stand in one text.

ghost use Rattle.std.specs.Prelude.{◌≡◌, IfOk, Err, IsUtf8};
ghost use Rattle.lab_text.specs.Words.{words};
ghost use Rattle.call_edge.specs.Words.{HasNoText};
ghost use Rattle.call_edge.specs.declared.words.WordsFault.TheVariants.{NoText};

use command_line::Word;
use lab_text::split_word;
use net_types::OutOfMemory;
use std::alloc::Global;

/// An error of splitting command-line arguments: why the words of a command can't be had.
#[derive(Clone, Copy, Debug, PartialEq, Eq)]
pub enum WordsFault {
    /// The octets of a word aren't UTF-8.
    NoText,
    /// No memory was left for the words.
    OutOfMemory(OutOfMemory),
}

/// The word that these octets are.
fn read_word(alloc: Global, octets: &[u8]) -> Result<Word, WordsFault>
    ensures word { IfOk result (λ word. word ≡ octets.now) }
    ensures no_text { result ≡ Err NoText → IsUtf8 octets.now → ⊥ }
{
    let Ok(text) = str::from_utf8(octets) else {
        return Err(WordsFault::NoText);
    };
    match String::from_str(alloc, text) {
        Ok(text) => Ok(Word::new(text)),
        Err(error) => Err(WordsFault::OutOfMemory(OutOfMemory::from(error))),
    }
}

/// The words that stand in `octets`, with spaces or tabs between them.
pub fn read_words(alloc: Global, octets: &[u8]) -> Result<Vec<Word>, WordsFault>
    ensures words { IfOk result (λ found. found.items ≡ words octets.now) }
    ensures no_text { result ≡ Err NoText → HasNoText (words octets.now) }
{
    let mut found = Vec::new(alloc);
    let mut rest = octets;
    while let Some((word, others)) = split_word(rest) {
        let word = read_word(alloc, word)?;
        if let Err(error) = found.push(word) {
            return Err(WordsFault::OutOfMemory(OutOfMemory::from(error)));
        }
        rest = others;
    }
    Ok(found)
}
