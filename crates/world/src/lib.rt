//! A network of IP switches (Newman, Minshall and Lyon) in a run: at each node a controller and its
//! switch, joined by a control link, and between the nodes the links of a topology. What each event
//! makes of it is defined in `world_model`; [`World`] is proved to be that definition, over any
//! [`NodeController`].
#![tactic(auto)]

mod counts;
mod inputs;
mod law;
mod links;
mod node_set;
mod opening;
mod rounds;
mod site;
mod step;
mod tally;
mod world;

pub use counts::{Counts, Meter};
pub use law::empty_carries_count;
pub use node_controller::{InjectFault, NodeController, NodeSetup};
pub use world::World;
