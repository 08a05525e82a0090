//! What a controller at peace sends in its tick on the default channel of a port is what that port says (RFC 1953), message by
//! message in order, and nothing else, where the tick enters no loss. So what comes between the controllers of a link behind
//! the ticks of both (`law_live_orders`) is what their ports have said.
//!
//! `specs/Law` has the statement. Which messages a tick sends is `law_live_nodes`'; that each is a frame under a mark of its
//! own, and that joins which are tried send on the channel of GSMP alone, is followed here (`proofs/Going`, `proofs/Ticking`).
//! There is no code that runs.
#![tactic(auto)]

ghost use Rattle.law_live_sending.specs.Law.{TicksSendWhatPortsSay};

/// What a tick of a controller at peace sends on a port's default channel. It does nothing, and its contract is the statement.
pub fn ticks_send_what_ports_say()
    ensures send { TicksSendWhatPortsSay }
{}
