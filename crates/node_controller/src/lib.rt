//! What a network asks of the controllers of its nodes (RFC 1987): the trait [`NodeController`], whose
//! calls are the rules of `world_model`, and what each wants of its caller.
#![tactic(auto)]

mod node;

pub use node::{InjectFault, NodeController, NodeSetup};
