//! Flow classifiers (policies), which say when a flow gets a label of its own, and the counts of
//! the packets of each flow on which they go (Newman, Minshall and Lyon, "IP Switching: ATM under
//! IP": the X/Y classifier). How flows are counted is defined in `port_model`.
#![tactic(auto)]

mod classifier;
mod counted_flows;
mod laws;
mod policy;
mod rows;
mod tally;

pub use classifier::Classifier;
pub use counted_flows::CountedFlows;
pub use laws::counts_are_of_the_window;
pub use policy::{NamedPolicy, Never, Policy, XyPolicy};
