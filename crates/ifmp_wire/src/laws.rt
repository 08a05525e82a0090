//! What holds of all messages, as functions that do nothing: each contract is a law of the
//! definitions.

ghost use Rattle.std.specs.Prelude.{◌≡◌, ℕ, List, None};
ghost use Rattle.ifmp_wire.specs.declared.message.Message.{Message};
ghost use Rattle.ifmp_wire.specs.Message.{Tells, InRange, FitsMessage, octets_of};
ghost use Rattle.ifmp_wire.specs.Tests.{first_fault};

/// Octets tell at most one message.
pub fn octets_tell_one_message()
    ensures { (octets : List ℕ) (first second : Message) → Tells octets first → Tells octets second → first ≡ second }
{}

/// The octets of each message in range pass every test of a receiver.
pub fn octets_are_accepted()
    ensures { (message : Message) → InRange message → FitsMessage message → first_fault (octets_of message) ≡ None }
{}
