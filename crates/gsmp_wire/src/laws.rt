//! What the definition of a message's octets has beyond the two calls.

ghost use Rattle.std.specs.Prelude.{◌≡◌};
ghost use Rattle.gsmp_wire.specs.declared.message.Message.{Message};
ghost use Rattle.gsmp_wire.specs.Layout.{octets_of};
ghost use Rattle.gsmp_wire.specs.Range.{IsInRange};

/// Octets have at most one message in range.
pub fn octets_have_one_message()
    ensures { (first second : Message) →
        IsInRange first → IsInRange second → octets_of first ≡ octets_of second → first ≡ second }
{}
