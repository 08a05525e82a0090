//! The controller of an IP switch: a router whose links are the ports of an ATM switch, which it drives by
//! GSMP (RFC 1987), and which redirects flows to labels by IFMP (RFC 1953). What it does is defined in
//! `world_model`; [`Controller`] is that definition in code, over any engines of its ports, and the
//! controller of a node in a network. What its router asks of it at each call holds of every controller,
//! from the opening on (`law_controller_conditions`, `law_joining_conditions`).
#![tactic(auto)]

mod cells;
mod controller;
mod node;
mod opening;
mod packets;

pub use controller::Controller;
pub use node_controller::{InjectFault, NodeController, NodeSetup};
pub use world_model::PortRange;
