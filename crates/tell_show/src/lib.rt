//! An observer that writes the state of a network behind the last event of a script, as a router's
//! show commands do: for each node what its controller holds, its linked ports, its switch and its
//! queues; and how much of each there is. It is a function of the run, in `specs/`, and the lines
//! are those of `show_text`.
#![tactic(auto)]

mod desk;
mod engine;
mod grants;
mod labels;
mod routes;
mod shown_controller;
mod site;
mod switch;
mod tell;
mod teller;
mod totals;

pub use engine::ShownEngine;
pub use shown_controller::ShownController;
pub use teller::{LastState, ShowTeller, show_teller};
