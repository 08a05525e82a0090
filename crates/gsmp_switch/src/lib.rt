//! The ATM switch of a node, which a controller drives by GSMP (RFC 1987): cells go where its
//! branches lead, and messages that come on the control port change the branches. What it does is
//! defined in `world_model`; [`Switch`] is proved to be that definition.
#![tactic(auto)]

mod answer;
mod change;
mod cut;
mod exchange;
mod ports;
mod request;
mod switch;

pub use switch::Switch;
