//! A port of a node that is up with its switch goes by the table of its adjacency (RFC 1953) at the node's tick, whatever state it is in,
//! as `law_live_waking_links` asks of it.
//!
//! What its controller hears of the switch leaves it as it is, or clears it.
//!
//! `specs/Law` and `specs/Switches` have the statements. What a port does beside its table's answer says no greeting (`proofs/Plain`),
//! and what a controller does besides leaves its side as it is (`proofs/Working`). There is no code that runs.
#![tactic(auto)]

ghost use Rattle.law_live_tables.specs.Law.{RunsAreOrderly, TicksGoByTable};
ghost use Rattle.law_live_tables.specs.Switches.{SwitchesAreHeard};

/// A port goes by its table at its node's tick. It does nothing, and its contract is the statements.
pub fn ticks_go_by_table()
    ensures orderly { RunsAreOrderly }
    ensures ticks { TicksGoByTable }
{}

/// What a controller hears of its switch leaves a port as it is, or clears it, and greets nobody for it. It does nothing, and its
/// contract is the statement.
pub fn switches_are_heard()
    ensures heard { SwitchesAreHeard }
{}
