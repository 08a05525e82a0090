//! A label-switching router (one that joins labels): a router over the engines of its ports, and
//! the list of its joins, by which those that an answer of the switch releases, and those that a
//! change of routes leads elsewhere, are found. Each call is proved to be a rule of `world_model`.
#![tactic(auto)]

mod answering;
mod changing;
mod joining;
mod passing;
mod releasing;
mod ticking;
mod trying;
mod working;

pub use joining::JoiningRouter;
