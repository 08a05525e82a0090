//! The state machine of one label on one link (RFC 1953), and its safety theorem (law): over every list of messages,
//! losses, refreshes, reclaims, expiries, joins, resets and restarts, a label that is spare or wired has no user, and
//! whatever uses a label stands for the flow that it is bound to; and what is said under one instance stays in the
//! order of its numbers.
//!
//! The machine of one label stands in `specs/`: `Cells` (the link and what is said on it), `Line`
//! (the whole state), `Downstream` and `Upstream` (what the two ends do) and `Moves`; `Law` has the
//! six parts of the law. Both ends are sides of an adjacency, seen by their instances as in
//! `adjacency_table`. There is no code that runs.
#![tactic(auto)]

ghost use Rattle.std.specs.Prelude.{ℕ, ◌<◌};
ghost use Rattle.law_label_line.specs.Line.{Line, start};
ghost use Rattle.law_label_line.specs.Moves.{Move, step};
ghost use Rattle.law_label_line.specs.Law.{Always, IsReached, SpareIsUnused, OnlyRecalledIsReclaimed, UsersHaveItsFlow, PeersWereCleared, NumbersAreInOrder, OldCellsLead};

/// The law: what holds of one label on one link after every list of moves. It does nothing, and its
/// contract is the statement.
pub fn label_is_owned()
    ensures spare_is_unused { Always SpareIsUnused }
    ensures only_recalled_is_reclaimed { Always OnlyRecalledIsReclaimed }
    ensures users_have_its_flow { Always UsersHaveItsFlow }
    ensures peers_were_cleared { Always PeersWereCleared }
    ensures numbers_are_in_order { Always NumbersAreInOrder }
    ensures old_cells_lead { Always OldCellsLead }
{}

/// The states that moves lead to: each start is one, and each move leads on to another.
pub fn reached_lines()
    ensures first { (downstream upstream fresh : ℕ) → downstream < fresh → upstream < fresh
        → IsReached (start downstream upstream fresh) }
    ensures next { (line : Line) (move : Move) → IsReached line → IsReached (step line move) }
{}
