//! The round-trip theorem of GSMP in a network: what a receiver reads in the octets of a message is the message that
//! was said.
//!
//! `specs/Said` has what is said: each field that a message has no use for is 0. There is no code that
//! runs.
#![tactic(auto)]

ghost use Rattle.std.specs.Prelude.{◌≡◌, Ok};
ghost use Rattle.gsmp_wire.specs.declared.message.Message.{Message};
ghost use Rattle.gsmp_wire.specs.Range.{Fits};
ghost use Rattle.gsmp_wire.specs.Layout.{octets_of};
ghost use Rattle.gsmp_wire.specs.Fields.{decoded};
ghost use Rattle.law_gsmp_reading.specs.Said.{IsSaid};

/// A message whose numbers fit is read from its octets, whatever its kind. It does nothing, and its
/// contract is the statement.
pub fn messages_are_read()
    ensures { (m : Message) → Fits m → IsSaid m → decoded (octets_of m) ≡ Ok m }
{}
