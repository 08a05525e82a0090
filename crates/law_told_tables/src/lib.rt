//! Routing tables over a run: that of each node has the routes of the topology, changed by a front of the changes that
//! events told the node, in their order; the changes that were not taken yet wait.
//!
//! The statement is `AreToldTables` of `claims_model`, which holds whichever events come, forged frames among them. No rule of a controller but
//! the one of changes touches the table or records `routes` (`proofs/Walk`, with `proofs/Notes` for what is recorded of
//! cells and frames); that one takes the first change that waits (`proofs/Taking`). `proofs/Switches` has the same of a
//! switch, `proofs/Worlds` goes over the events, `proofs/Opening` and `proofs/Runs` along a run. `proofs/Coming` says when a
//! change is taken at once. There is no code that runs.
#![tactic(auto)]

ghost use Rattle.law_told_tables.specs.Law.{TablesAreTold};

/// In every world of every run each node holds the routes of the topology, changed by as many of the changes told as it has
/// taken; each one that it takes is recorded in the event that takes it. It does nothing, and its contract is the statement.
pub fn tables_are_told()
    ensures tables { TablesAreTold }
{}
