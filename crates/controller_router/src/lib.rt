//! An IPv4 router whose links are the ports of an ATM switch: its routes, its client of GSMP, and
//! an engine of IFMP for each linked port. What a port at work asks is done here, and a node reset
//! begins all ports anew. Each call is proved to be a rule of `world_model`, whatever the engines
//! are that keep the rules of `port_model`.
#![tactic(auto)]

mod asking;
mod cells;
mod changing;
mod clearing;
mod engine;
mod greeting;
mod joining;
mod meeting;
mod opening;
mod packets;
mod performing;
mod reading;
mod resets;
mod router;
mod saying;
mod working;

pub use engine::{OpenEngine, PortEngine};
pub use router::Router;
