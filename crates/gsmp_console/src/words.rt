//! The words of a line, where there are so many.

ghost use Rattle.std.specs.Prelude.{◌≡◌, ◌∷◌, [], ◌==◌, length, false, IfSome, IfNone};
ghost use Rattle.lab_text.specs.Words.{words};

use lab_text::split_word;

/// The one word of `octets`; `None` where there is another number of them.
pub(crate) fn one_word(octets: &[u8]) -> Option<&[u8]>
    ensures none { IfNone result ((1 == length (words octets.now)) ≡ false) }
    ensures some { IfSome result (λ word. words octets.now ≡ word.now ∷ []) }
{
    let (word, others) = split_word(octets)?;
    match split_word(others) {
        None => Some(word),
        Some(_) => None,
    }
}

/// The two words of `octets`; `None` where there is another number of them.
pub(crate) fn two_words(octets: &[u8]) -> Option<(&[u8], &[u8])>
    ensures none { IfNone result ((2 == length (words octets.now)) ≡ false) }
    ensures some { IfSome result (λ found. words octets.now ≡ found.0.now ∷ found.1.now ∷ []) }
{
    let (first, others) = split_word(octets)?;
    let second = one_word(others)?;
    Some((first, second))
}

/// The four words of `octets`; `None` where there is another number of them.
pub(crate) fn four_words(octets: &[u8]) -> Option<(&[u8], &[u8], &[u8], &[u8])>
    ensures none { IfNone result ((4 == length (words octets.now)) ≡ false) }
    ensures some { IfSome result (λ found. words octets.now ≡ found.0.now ∷ found.1.now ∷ found.2.now ∷ found.3.now ∷ []) }
{
    let (first, others) = split_word(octets)?;
    let (second, others) = split_word(others)?;
    let (third, fourth) = two_words(others)?;
    Some((first, second, third, fourth))
}

/// The six words of `octets`; `None` where there is another number of them.
pub(crate) fn six_words(octets: &[u8]) -> Option<(&[u8], &[u8], &[u8], &[u8], &[u8], &[u8])>
    ensures none { IfNone result ((6 == length (words octets.now)) ≡ false) }
    ensures some { IfSome result (λ found. words octets.now ≡ found.0.now ∷ found.1.now ∷ found.2.now ∷ found.3.now ∷ found.4.now ∷ found.5.now ∷ []) }
{
    let (first, others) = split_word(octets)?;
    let (second, others) = split_word(others)?;
    let (third, fourth, fifth, sixth) = four_words(others)?;
    Some((first, second, third, fourth, fifth, sixth))
}
