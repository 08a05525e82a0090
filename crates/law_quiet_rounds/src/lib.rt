//! The ranking function over rounds of carries: sums over the nodes of a network in the measure of `claims_model`
//! (`proofs/Sites`); the queues of a network are the same in each world of a run (`Places`), and where each carry makes
//! the network lighter, so many rounds make it lighter by as many, or leave every queue empty (`Rounds`). There is no
//! code that runs.
#![tactic(auto)]
