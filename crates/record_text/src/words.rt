//! The words behind the first one, where there are no others; for tests and claims alone.

ghost use Rattle.std.specs.Prelude.{◌≡◌};
ghost use Rattle.std.specs.Option.{option_map};
ghost use Rattle.lab_text.specs.Words.{words};
ghost use Rattle.record_text.specs.Words.{one, two, three, four, five};

use lab_text::split_word;

pub(crate) fn one_word(fields: &[u8]) -> Option<&[u8]>
    ensures { option_map (λ word. word.now) result ≡ one (words fields.now) }
{
    let (word, others) = split_word(fields)?;
    match split_word(others) {
        None => Some(word),
        Some(_) => None,
    }
}

pub(crate) fn two_words(fields: &[u8]) -> Option<(&[u8], &[u8])>
    ensures { option_map (λ w. (w.0.now, w.1.now)) result ≡ two (words fields.now) }
{
    let (first, others) = split_word(fields)?;
    let second = one_word(others)?;
    Some((first, second))
}

pub(crate) fn three_words(fields: &[u8]) -> Option<(&[u8], &[u8], &[u8])>
    ensures { option_map (λ w. (w.0.now, w.1.now, w.2.now)) result ≡ three (words fields.now) }
{
    let (first, others) = split_word(fields)?;
    let (second, third) = two_words(others)?;
    Some((first, second, third))
}

pub(crate) fn four_words(fields: &[u8]) -> Option<(&[u8], &[u8], &[u8], &[u8])>
    ensures { option_map (λ w. (w.0.now, w.1.now, w.2.now, w.3.now)) result ≡ four (words fields.now) }
{
    let (first, others) = split_word(fields)?;
    let (second, third, fourth) = three_words(others)?;
    Some((first, second, third, fourth))
}

pub(crate) fn five_words(fields: &[u8]) -> Option<(&[u8], &[u8], &[u8], &[u8], &[u8])>
    ensures { option_map (λ w. (w.0.now, w.1.now, w.2.now, w.3.now, w.4.now)) result ≡ five (words fields.now) }
{
    let (first, others) = split_word(fields)?;
    let (second, third, fourth, fifth) = four_words(others)?;
    Some((first, second, third, fourth, fifth))
}
