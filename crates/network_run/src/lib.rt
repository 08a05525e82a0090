//! A simulation of a network, event by event (a run): each event is stepped, it is told of, and its
//! records are put away. What is told of it, and put to a report, is its observer's (its teller's).
#![tactic(auto)]

mod carries;
mod context;
mod engine;
mod plain;
mod teller;
mod ticks;
mod told;

pub use carries::{round, rounds};
pub use context::Context;
pub use engine::step;
pub use plain::{EndTeller, PlainTeller, RecordTeller, Silence};
pub use teller::Teller;
pub use telling_model::Ended;
pub use ticks::tick_all;
pub use told::Told;
