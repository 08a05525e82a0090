//! A network of IP switches as plain data: its topology, line by line, what can happen in it, and what each
//! event makes of it. Definitions alone, in `specs/`, which share nothing with the code; here are only the
//! types of their data. It passes on those of a switch and of a controller.
#![tactic(auto)]

mod event;
mod line;
mod link;
mod refusal;

pub use controller_model::PortRange;
pub use event::Event;
pub use line::TopologyLine;
pub use link::LinkEnd;
pub use refusal::{EventRefusal, TopologyRefusal};
pub use switch_model::{Asked, Failure, PortState, Request};
