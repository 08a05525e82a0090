//! Reassembly of the cells of a virtual channel into frames (I.363.5 9.2), for all who take cells:
//! a [`Reassembly`] keeps them in a chain of a region of slots, which a [`cell_pool::ChainStore`]
//! holds. It is the definition of `frame_model`, in code.
#![tactic(auto)]

mod chain;
mod reassembly;

pub use reassembly::Reassembly;
