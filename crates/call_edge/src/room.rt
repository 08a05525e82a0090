//! The room that a caller has for an output.

ghost use Rattle.std.specs.Prelude.{◌≡◌, nat_le, length, if◌then◌else◌};
ghost use Rattle.lab_io.specs.Memory.{written_over};

/// Copies `octets` over the front of `room` where they fit, and else leaves it as it was. Tells in `count`
/// how many they are, whether they fit or not.
pub fn hand_out(octets: &[u8], room: &mut [u8], count: &mut usize) -> bool
    ensures fits { result ≡ nat_le (length octets.now) (length room.old) }
    ensures count { count.new ≡ length octets.now }
    ensures room { room.new ≡ (if result then written_over room.old octets.now else room.old) }
{
    *count = octets.len();
    if octets.len() > room.len() {
        return false;
    }
    room[..octets.len()].copy_from_slice(octets);
    true
}
