//! The one's complement sum of the Internet's checksums (RFC 1071).

ghost use Rattle.std.specs.Prelude.{◌≡◌, ◌≤◌, length, sum};
ghost use Rattle.ipv4_packet.specs.Packet.{words, ones_complement, internet_sum_of};

/// The one's complement sum of the 16-bit words of `octets`, which are at most 65,536; where they
/// are odd in number, as if a zero followed.
pub fn internet_sum(octets: &[u8]) -> u16
    requires { length octets.now ≤ 65536 }
    ensures { result ≡ internet_sum_of octets.now }
{
    fold_carries(plain_sum(octets))
}

/// The plain sum of the words.
fn plain_sum(octets: &[u8]) -> u32
    requires { length octets.now ≤ 65536 }
    ensures { result ≡ sum (words octets.now) }
{
    let mut total: u32 = 0;
    for (place, octet) in octets.iter().enumerate() {
        total += if place % 2 == 0 {
            *octet as u32 * 256
        } else {
            *octet as u32
        };
    }
    total
}

/// Adds the carries back in (RFC 1071 2); the second time leaves none.
fn fold_carries(total: u32) -> u16
    ensures { result ≡ ones_complement total }
{
    let folded = total % 0x1_0000 + total / 0x1_0000;
    (folded % 0x1_0000 + folded / 0x1_0000) as u16
}
