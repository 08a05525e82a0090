//! Hop-by-hop routing alone, without links and cells: what it makes of the packets of a script, the
//! journey of each over the tables of the nodes, as the route lines before it set them, and the
//! report that tells of it.
#![tactic(auto)]

mod fates;
mod hops;
mod packet;
mod tables;

pub use fates::{Fates, Reported, ideal};
pub use hops::{Ending, journey};
pub use tables::Tables;
