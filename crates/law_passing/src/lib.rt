//! First in, first out: how the queues of a network change, event by event. A cell is taken from the head of one, and
//! cells are put at the ends of the queues of one actor. So what `telling_model` says that an event takes and puts is
//! all that happens to a queue.
//!
//! `specs/Law` has the statements, of the actor that an event reaches (`Reached` of `telling_model`). `proofs/Rules`
//! and `proofs/Controllers` go over the rules of a controller, `proofs/Switches` over those of a switch,
//! `proofs/Worlds` over the events. There is no code that runs.
#![tactic(auto)]

mod law;

pub use law::queues_change_by_passing;
