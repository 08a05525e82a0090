//! The IFMP engine of one interface of a router (a port of a controller; RFC 1953): the labels that
//! it hands out, those under which it may send, the flows that it counts, and its adjacency. It
//! takes what comes and answers what it asks for in turn. Each call is proved to be a rule of
//! `port_model`.
//!
//! | Module | Rules |
//! |---|---|
//! | `counting` | *Counting*: which flows are offered a label |
//! | `answers` | a success of the switch |
//! | `joins` | *Joins*, at the label and at the grant |
//! | `ticks` | *Tick* |
//! | `resets` | *Port reset*, *Restart*, clearing |
//!
//! What it does on hearing its peer is in `port_hearing`, what it says in `port_saying`.
#![tactic(auto)]

mod answers;
mod counting;
mod joins;
mod link;
mod resets;
mod ticks;

pub use link::Link;
pub use port_actions::Actions;
pub use port_labels::{LabelBook, LabelState, LabelView};
pub use port_model::{Action, Timers};
