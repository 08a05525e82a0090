//! The first words of lines.

ghost use Rattle.std.specs.Prelude.{◌≡◌, bytes_eq, find, map};
ghost use Rattle.std.specs.Option.{option_map};
ghost use Rattle.script_model.specs.Names.{keyword_of, keyword_text};
ghost use Rattle.script_words.specs.Keywords.{of_length};

use script_model::Keyword;

static OF_THREE: [(&str, Keyword); 1] = [("run", Keyword::Run)];

static OF_FOUR: [(&str, Keyword); 5] = [
    ("node", Keyword::Node),
    ("link", Keyword::Link),
    ("send", Keyword::Send),
    ("lose", Keyword::Lose),
    ("tick", Keyword::Tick),
];

static OF_FIVE: [(&str, Keyword); 4] = [
    ("cells", Keyword::Cells),
    ("route", Keyword::Route),
    ("carry", Keyword::Carry),
    ("forge", Keyword::Forge),
];

static OF_SIX: [(&str, Keyword); 3] = [
    ("labels", Keyword::Labels),
    ("policy", Keyword::Policy),
    ("timers", Keyword::Timers),
];

static OF_SEVEN: [(&str, Keyword); 3] = [
    ("version", Keyword::Version),
    ("restart", Keyword::Restart),
    ("unroute", Keyword::Unroute),
];

static OF_EIGHT: [(&str, Keyword); 1] = [("setroute", Keyword::SetRoute)];

static OF_TEN: [(&str, Keyword); 1] = [("tickswitch", Keyword::TickSwitch)];

static OF_THIRTEEN: [(&str, Keyword); 1] = [("restartswitch", Keyword::RestartSwitch)];

/// The first words of so many octets, each with its keyword.
fn of_length(length: usize) -> &'static [(&'static str, Keyword)]
    ensures texts { map (λ entry. entry.0.now) result.now ≡ map (λ entry. keyword_text entry.1) result.now }
    ensures keywords { map (λ entry. entry.1) result.now ≡ of_length length }
{
    match length {
        3 => &OF_THREE,
        4 => &OF_FOUR,
        5 => &OF_FIVE,
        6 => &OF_SIX,
        7 => &OF_SEVEN,
        8 => &OF_EIGHT,
        10 => &OF_TEN,
        13 => &OF_THIRTEEN,
        _ => &[],
    }
}

/// The keyword that `word` is among these, if it is one.
fn among(words: &[(&str, Keyword)], word: &[u8]) -> Option<Keyword>
    ensures { result ≡ option_map (λ entry. entry.1) (find (λ entry. bytes_eq word.now entry.0.now) words.now) }
{
    words
        .iter()
        .find(|(text, _)| word == text.as_bytes())
        .map(|(_, keyword)| *keyword)
}

/// The keyword that `word` is, if it is one. It is compared with those of its length alone.
pub fn keyword_of(word: &[u8]) -> Option<Keyword>
    ensures { result ≡ keyword_of word.now }
{
    among(of_length(word.len()), word)
}
