//! What a tick, and a greeting that is heard, make of the side of a port and of a switch, and a greeting of that of a
//! controller towards its switch: what the adjacency table says (RFC 1953, RFC 1987), whatever state the side is in, and
//! its answer is said before all else. Of such turns `law_live_meetings` makes exchanges.
//!
//! `specs/Law` has the statements. There is no code that runs.
#![tactic(auto)]

ghost use Rattle.law_live_turns.specs.Law.{PortsTick, PortsHear, PortsBegin, SwitchesTick, SwitchesHear, ControllersHear};

/// What a tick and a greeting make of a port and of a switch, and a greeting of a controller. It does nothing, and its
/// contract is the statements.
pub fn turns_are_taken()
    ensures ports_tick { PortsTick }
    ensures ports_hear { PortsHear }
    ensures ports_begin { PortsBegin }
    ensures switches_tick { SwitchesTick }
    ensures switches_hear { SwitchesHear }
    ensures controllers_hear { ControllersHear }
{}
