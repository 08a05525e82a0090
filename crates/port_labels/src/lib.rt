//! The incoming labels that a port holds (its local bindings; RFC 1953), the lowest first, each in
//! its state as a type: it is found by its number, by its index among the others, and by the flow
//! that it serves. What a label is is defined in `port_model`.
#![tactic(auto)]

mod book;
mod held;
mod index;
mod places;
mod view;

pub use book::LabelBook;
pub use view::{HeldLabel, HeldState, LabelState, LabelView};
