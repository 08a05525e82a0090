//! Lines of text: the lines of an input and the words of a line, the numbers and the hexadecimal
//! octets that a word spells, lines that hold one word of hexadecimal, and text that is written:
//! its numbers and octets, and the names of causes, layers and refusals.
#![tactic(auto)]

mod hex_line;
mod line;
mod lines;
mod names;
mod numeral;
mod text;

pub use hex_line::read_hex_line;
pub use line::{
    INPUT_LIMIT, LINE_LIMIT, LineFault, are_script_octets, check_line, is_blank_line, line_text,
    split_word,
};
pub use lines::{line_feed, split_line};
pub use names::{cause_name, drop_name, layer_name, refusal_name};
pub use numeral::{hex_pairs, is_hex, is_number, long_number, read_hex, read_number};
pub use text::Text;
