//! The ranking function over a port's actions: where a controller does what its ports have asked, it adds no more to
//! the measure of `claims_model` than their actions weigh. A step is judged by what it costs, with the cells that it
//! sends (`proofs/Judging`); a reset of the node costs nothing (`Resets`), and what a port asks, with a reset of the
//! port, what its actions weigh (`Acting`). There is no code that runs.
#![tactic(auto)]
