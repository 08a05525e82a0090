//! A generator of scripts (drills), line by line: a row of nodes, packets of four flows from the
//! first to the last, losses and two restarts. No more than the line that is next is kept.
#![tactic(auto)]

mod cursor;
mod lines;
mod packet;
mod steps;
mod write;

pub use lines::DrillLines;
