//! The work queue of a port: what it asks of its controller, as a list that is worked off from the
//! front, and what will stand at the controller's desk once all of it is done. Both are defined in
//! `port_model`.
#![tactic(auto)]

mod actions;
mod outlook;

pub use actions::Actions;
pub use outlook::Outlook;
