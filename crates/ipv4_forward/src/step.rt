//! The routing step.

ghost use Rattle.std.specs.Prelude.{◌≡◌};
ghost use Rattle.ipv4_packet.specs.Packet.{IsPacket};
ghost use Rattle.ipv4_forward.specs.Hop.{hop_of, hopped_by};

use crate::outcome::Hop;
use crate::table::{Next, Table};
use ipv4_packet::{destination, set_ttl, ttl};

/// Routes a packet by the best route of its destination. Where it is sent on, its Time To Live is
/// one less and its checksum canonical; else it stays as it is.
pub fn hop(table: &Table, packet: &mut [u8]) -> Hop
    requires { IsPacket packet.old }
    ensures hop { result ≡ hop_of table.now packet.old }
    ensures hopped { packet.new ≡ hopped_by packet.old result }
    ensures packet { IsPacket packet.new }
{
    match table.lookup(destination(packet)) {
        None => Hop::NoRoute,
        Some(Next::Local) => Hop::Here,
        Some(Next::Via(port)) => {
            let left = ttl(packet);
            if left <= 1 {
                return Hop::Expired;
            }
            set_ttl(packet, left - 1);
            Hop::On(port)
        }
    }
}
