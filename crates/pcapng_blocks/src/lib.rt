//! The blocks of a file in the format pcapng (draft-ietf-opsawg-pcapng), which packet analysers read: Section
//! Header, Interface Description and Enhanced Packet, with their options. Numbers have their lowest octet first.
//! Each call appends a block; where memory is wanting, what stood there is still in front, and behind it stands a
//! front of the block, or nothing.
//!
//! | Octets | Content of any block |
//! |---|---|
//! | 4 | its type: 0A0D0D0A hexadecimal, 1 or 6 |
//! | 4 | its length in octets, that of the whole block |
//! | length - 12 | its body |
//! | 4 | its length again |
//!
//! | Octets | Content of an option |
//! |---|---|
//! | 2 | its code |
//! | 2 | the length of its value |
//! | a multiple of 4 | its value, filled up with octets 0 |
#![tactic(auto)]

mod block;
mod fields;
mod option;

pub use block::{write_enhanced_packet, write_interface_description, write_section_header};
pub use option::OptionCode;
