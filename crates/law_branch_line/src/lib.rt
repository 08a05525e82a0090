//! The state machine of one input of a switch (RFC 1987), and its safety theorem (law), over a control link that loses:
//! what is asked on the input, sent again, withdrawn, answered late or never, while both ends are reset and restart at
//! any time. It is a law of definitions; there is no code that runs.
#![tactic(auto)]

ghost use Rattle.std.specs.Prelude.{ℕ, ◌<◌};
ghost use Rattle.law_branch_line.specs.Line.{Line, start};
ghost use Rattle.law_branch_line.specs.Moves.{Move, step};
ghost use Rattle.law_branch_line.specs.Law.{Always, AnswersTellTrue, AsksFirst, CopiesAreInOrder, HasDrawn, HasOnlyNewInEstab, IsEmptyWhenMet, IsReached, IsSettledInEstab, TakesItsControllers};

/// The law of one input, after every list of moves from the opening.
pub fn input_law()
    ensures settled { Always IsSettledInEstab }
    ensures true_answers { Always AnswersTellTrue }
    ensures only_new { Always HasOnlyNewInEstab }
    ensures emptied { Always IsEmptyWhenMet }
    ensures own_controller { Always TakesItsControllers }
    ensures copies_in_order { Always CopiesAreInOrder }
{}

/// The states that moves lead to: each opening is one, and each move leads on to another.
pub fn reached_lines()
    ensures first { (controller switch fresh ports_before ports_behind : ℕ)
        → 0 < controller → controller < fresh → switch < fresh
        → IsReached (start controller switch fresh ports_before ports_behind) }
    ensures next { (w : Line) (move : Move) → IsReached w → IsReached (step w move) }
{}

/// What the ends have and name was drawn before, and All Ports is asked first of all, after every list of
/// moves from the opening.
pub fn instances_are_drawn()
    ensures drawn { Always HasDrawn }
    ensures first { Always AsksFirst }
{}
