//! A GSMP client (RFC 1987), but for what it asks: its adjacency with the switch, the requests that
//! stand, and the control link, on which all frames of a controller go and come. What each call
//! makes of a controller is a rule of `world_model`, whatever router stands beside the client.
#![tactic(auto)]

mod asking;
mod channels;
mod client;
mod ends;
mod sending;

pub use client::Client;
pub use ends::{default_end, home_of, label_end};
