//! A controller that ticks at peace keeps its inputs mirrored by its switch: its labels grow older and its grants lose one tick of
//! their lifetimes, which leads no input elsewhere; and each join that is tried then asks for a Move Branch that can be carried out.
#![tactic(auto)]

ghost use Rattle.law_live_mirrored_ticks.specs.Law.{TicksKeepMirrors};

/// A tick at peace keeps inputs mirrored. It does nothing, and its contract is the statement.
pub fn ticks_keep_mirrors()
    ensures { TicksKeepMirrors }
{}
