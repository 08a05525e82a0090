//! The first words of lines.

ghost use Rattle.std.specs.Prelude.{◌≡◌, bytes_eq, find};
ghost use Rattle.std.specs.Option.{option_map};
ghost use Rattle.console_model.specs.Lines.{keyword_of};

use console_model::{FIRST_WORDS, Keyword};

/// The keyword that `word` is among these, if it is one.
fn among(words: &[(&str, Keyword)], word: &[u8]) -> Option<Keyword>
    ensures { result ≡ option_map (λ entry. entry.1) (find (λ entry. bytes_eq word.now entry.0.now) words.now) }
{
    words
        .iter()
        .find(|(text, _)| word == text.as_bytes())
        .map(|(_, keyword)| *keyword)
}

/// The keyword that `word` is, if it is one.
pub(crate) fn keyword_of(word: &[u8]) -> Option<Keyword>
    ensures { result ≡ keyword_of word.now }
{
    among(&FIRST_WORDS, word)
}
