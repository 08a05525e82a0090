//! Single fields of a message, by the index of their first octet.

ghost use Rattle.std.specs.Prelude.{◌≡◌, ◌+◌, ◌≤◌, length};
ghost use Rattle.gsmp_wire.specs.Refusal.{are_zero};

/// Whether so many octets from this index on are 0.
pub(crate) fn are_zero(message: &[u8], place: usize, count: usize) -> bool
    requires { place + count ≤ length message.now }
    ensures { result ≡ are_zero place count message.now }
{
    message[place..place + count]
        .iter()
        .all(|octet| *octet == 0)
}
