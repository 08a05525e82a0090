//! What a controller at peace says in its tick is put into its queue, whole, where slots are free for it: the greeting of its
//! switch, the greetings of its peers and the REDIRECTs that are due (RFC 1953, RFC 1987). `law_live_nodes` says which these
//! are, and `law_live_hearing` that what was put is heard.
//!
//! `specs/Law` has the statements. There is no code that runs.
#![tactic(auto)]

ghost use Rattle.law_live_saying.specs.Law.{MessagesArePut, GreetingsArePut};

/// What a controller at peace says in its tick is put into its queue. It does nothing, and its contract is the statements.
pub fn messages_are_put()
    ensures messages { MessagesArePut }
    ensures greetings { GreetingsArePut }
{}
