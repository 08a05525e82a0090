//! Parsers of words that lines of several languages share: so many words of a line, and words that
//! say a number of 32 or of 64 bits, an address or a prefix, or two parts with a sign between them.
#![tactic(auto)]

mod forms;
mod words;

pub use forms::{address_of, number_in, prefix_of, split_at_sign};
pub use lab_text::long_number;
pub use words::{four_words, one_word, three_words, two_words};
