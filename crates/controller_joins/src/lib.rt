//! The cross-connects of a controller (its joins), in ascending order of their inputs: found by
//! input, and the first of a port, in the logarithm of their number. Which joins there are is the
//! controller's; see `world_model`.
#![tactic(auto)]

mod joins;
mod places;

pub use joins::Joins;
pub use places::Joined;
