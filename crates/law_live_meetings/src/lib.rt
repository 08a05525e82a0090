//! Two ends of an adjacency that greet each other come to have met (RFC 1953, RFC 1987): in four exchanges at most where
//! nothing is on the way at first, whatever state each is in and whomever it has stored. In an exchange each end ticks
//! once, and all that they say is heard, in its order, with what is answered to it.
//!
//! `specs/Exchange` says what an exchange is, and `specs/Law` has the statements. There is no code that runs.
#![tactic(auto)]

ghost use Rattle.law_live_meetings.specs.Exchange.{ifmp, gsmp};
ghost use Rattle.law_live_meetings.specs.Law.{EndsComeToMeet, StrangersComeToMeet, TurnsComeToRest, GreetingsAreHeard, HellosAreHeard};

/// Two ends that greet each other come to have met: the ports of a link, and a controller and its switch. It does nothing,
/// and its contract is the statements.
pub fn ends_come_to_meet()
    ensures neighbours { EndsComeToMeet ifmp }
    ensures switches { EndsComeToMeet gsmp }
    ensures strange_neighbours { StrangersComeToMeet ifmp }
    ensures strange_switches { StrangersComeToMeet gsmp }
    ensures greetings { GreetingsAreHeard }
    ensures hellos { HellosAreHeard }
{}

/// Wherever an exchange stands, there are turns that bring it to rest. It does nothing, and its contract is the statement.
pub fn turns_come_to_rest()
    ensures neighbours { TurnsComeToRest ifmp }
    ensures switches { TurnsComeToRest gsmp }
{}
