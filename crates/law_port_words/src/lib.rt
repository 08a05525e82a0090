//! Definitions of a controller's conduct in an event: what its ports are, say and note, and which frames it makes, told
//! by what was so before it. There is no code that runs.
#![tactic(auto)]
