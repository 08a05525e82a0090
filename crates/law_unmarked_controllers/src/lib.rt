//! Non-interference of marks and notes at a controller, which reads none of them: what comes to it leaves, but for
//! these, what it would leave where there were none.
//!
//! `specs/Unmarked` takes the marks of all cells, the notes, and what is counted for them from a controller, a switch or a
//! world, and leaves all else; `specs/Law` has the statement. The proof goes rule by rule: what each makes of a controller
//! without marks is, without marks, what it makes of it with them (`proofs/Lists`, `proofs/Cells` and `proofs/Notes` for lists,
//! chains and notes, `proofs/Controllers` for what is read and sent, `proofs/Rules` for what a port asks, `proofs/Meeting` for
//! joins, answers and ticks, `proofs/Frames` for packets and cells). There is no code that runs.
#![tactic(auto)]

ghost use Rattle.law_unmarked_controllers.specs.Law.{ControllersReadNoMark};

/// Whatever comes to two controllers that differ in marks and notes alone leaves two such, which recorded the same but for the
/// numbers of packets. It does nothing, and its contract is the statement.
pub fn controllers_read_no_mark()
    ensures { ControllersReadNoMark }
{}
