//! Event traces of the cells on a network's links, and when one is good. A trace tells line by line
//! which ports are linked, which cell comes to which queue, which queue's first cell is carried or
//! lost, what each frame's payload is, and which channel is bound to which flow. Definitions, in
//! `specs/`, and laws of them; there is no code that runs.
#![tactic(auto)]

mod cell;
mod end;
mod line;
mod refusal;
mod verdict;

pub use cell::{Taken, TraceCell};
pub use end::{NodeName, TraceEnd, TraceLabel};
pub use line::TraceLine;
pub use refusal::TraceRefusal;
pub use verdict::{Breach, Step};
