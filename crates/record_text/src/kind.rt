//! The first words of records' lines, where they are read: for tests and claims alone.

ghost use Rattle.std.specs.Prelude.{◌≡◌, bytes_eq, find};
ghost use Rattle.std.specs.Option.{option_map};
ghost use Rattle.record_text.specs.Reading.{kind_of};

/// What a record's line is of: its first word.
#[derive(Clone, Copy, Debug, PartialEq, Eq)]
pub(crate) enum Kind {
    /// `deliver`
    Delivered,
    /// `drop`
    Dropped,
    /// `refuse`
    Refused,
    /// `loss`
    Loss,
    /// `chance`
    Chance,
    /// `bad`
    Bad,
    /// `open`
    Opened,
    /// `close`
    Closed,
    /// `bind`
    Bind,
    /// `free`
    Free,
    /// `join`
    Join,
    /// `part`
    Part,
    /// `forged`
    Forged,
    /// `routes`
    Routes,
}

/// The first words of the lines that are read, each with what its line is of.
const FIRST_WORDS: [(&[u8], Kind); 14] = [
    (b"deliver", Kind::Delivered),
    (b"drop", Kind::Dropped),
    (b"refuse", Kind::Refused),
    (b"loss", Kind::Loss),
    (b"chance", Kind::Chance),
    (b"bad", Kind::Bad),
    (b"open", Kind::Opened),
    (b"close", Kind::Closed),
    (b"bind", Kind::Bind),
    (b"free", Kind::Free),
    (b"join", Kind::Join),
    (b"part", Kind::Part),
    (b"forged", Kind::Forged),
    (b"routes", Kind::Routes),
];

/// The kind that `word` is of among these, if it is of one.
fn among(words: &[(&[u8], Kind)], word: &[u8]) -> Option<Kind>
    ensures { result ≡ option_map (λ entry. entry.1) (find (λ entry. bytes_eq word.now entry.0.now) words.now) }
{
    words
        .iter()
        .find(|(text, _)| word == *text)
        .map(|(_, kind)| *kind)
}

/// The kind of this first word.
pub(crate) fn kind_of(word: &[u8]) -> Option<Kind>
    ensures { result ≡ kind_of word.now }
{
    among(&FIRST_WORDS, word)
}
