//! What a frame does that is heard (RFC 1953, RFC 1987): a port hears the message of IFMP that came on its default channel,
//! and a controller and its switch are told the messages of GSMP that came between them.
//!
//! `specs/Law` has the statements, of any controller and any switch; `law_live_hearing` says when such a frame is heard. There
//! is no code that runs.
#![tactic(auto)]

ghost use Rattle.law_live_messages.specs.Law.{PortsHear, ControllersAreTold, SwitchesAreTold};

/// What a frame does that holds a message. It does nothing, and its contract is the statements.
pub fn messages_are_told()
    ensures ports { PortsHear }
    ensures controllers { ControllersAreTold }
    ensures switches { SwitchesAreTold }
{}
