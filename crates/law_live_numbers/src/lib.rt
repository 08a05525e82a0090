//! Where transaction numbers are left for what a frame makes its controller ask, the node stays in Estab with its switch (RFC
//! 1987; that a node is reset where its numbers are spent is this project's own): so `law_live_others` holds of the frame.
//!
//! `specs/Law` has the statements, with how many numbers a port may take. What is asked takes one number (`proofs/Taking`), and
//! a frame as many as the port asks for (`proofs/Standing`). There is no code that runs.
#![tactic(auto)]

ghost use Rattle.law_live_numbers.specs.Law.{NumbersKeepNodesUp, PacketsTakeOneNumber};

/// Where numbers are left, what a controller hears resets no node. It does nothing, and its contract is the statements.
pub fn numbers_keep_nodes_up()
    ensures up { NumbersKeepNodesUp }
    ensures packets { PacketsTakeOneNumber }
{}
