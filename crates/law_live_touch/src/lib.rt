//! Two ends of a link stay in touch through all that labels do between them (RFC 1953), in whatever order it comes: labels are
//! bound, and come back, each on its way of its own, while others do. Each label is spare, new, offered, returning or quit, and
//! what the other end has of it, and what is on its way, is as that wants it; and once nothing is on its way, both agree.
//!
//! `specs/Law` has the statements, of the two ports alone, of each rule by itself. Left out are Errors, which two ends in touch
//! don't say; a REDIRECT that is refused, for want of room or by the range; a label that is recalled while its REDIRECT is
//! on its way, or by a LABEL RANGE; and that grants grow older. There is no code that runs.
#![tactic(auto)]

ghost use Rattle.law_live_touch.specs.Law.{AgreedEndsTouch, AtRestTheyAgree, TouchingEndsRest, HearingKeepsTouch, CountingKeepsTouch, OffersKeepTouch, StartsKeepTouch, TicksKeepTouch, ReturnsKeepTouch, FreesKeepTouch, NudgesKeepTouch, GreetingsKeepTouch, LendingKeepsTouch, JoinsKeepTouch, WindowsKeepTouch, SilenceKeepsTouch};

/// Two ends of a link stay in touch, and agree at rest. It does nothing, and its contract is the statements.
pub fn ends_stay_in_touch()
    ensures agreed { AgreedEndsTouch }
    ensures rest { AtRestTheyAgree }
    ensures rests { TouchingEndsRest }
    ensures hearing { HearingKeepsTouch }
    ensures counting { CountingKeepsTouch }
    ensures offers { OffersKeepTouch }
    ensures starts { StartsKeepTouch }
    ensures ticks { TicksKeepTouch }
    ensures returns { ReturnsKeepTouch }
    ensures frees { FreesKeepTouch }
    ensures nudges { NudgesKeepTouch }
    ensures greets { GreetingsKeepTouch }
    ensures lends { LendingKeepsTouch }
    ensures joins { JoinsKeepTouch }
    ensures windows { WindowsKeepTouch }
    ensures silence { SilenceKeepsTouch }
{}
