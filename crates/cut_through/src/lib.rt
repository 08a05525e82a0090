//! Cut-through (Newman, Minshall and Lyon): where the input of a label is led straight on, past the
//! controller, to a label of the next hop's flow, at the port of the flow's route. The rule *Joins*
//! of a controller is defined in `world_model`.
#![tactic(auto)]

mod joins;
mod laws;

pub use joins::{Join, plan, planned_label, route_of, undo};
pub use laws::plans_are_the_controllers;
