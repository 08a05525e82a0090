//! ATM channels and the ends of connections (ITU-T I.361 2.2).

ghost use Rattle.std.specs.Prelude.{◌≡◌, ◌<◌, ◌≤◌};
ghost use Rattle.net_types.specs.Channel.{channel_on_control};

use crate::node::PortNo;

/// A virtual channel of one link (I.361 2.2): its VPI, 0 to 255 in a cell at the user-network
/// interface, and its VCI of 16 bits.
#[derive(Clone, Copy, Debug, PartialEq, Eq, Hash)]
pub struct Channel {
    /// Virtual path identifier.
    pub vpi: u16,
    /// Virtual channel identifier.
    pub vci: u16,
}

/// The default channel of a link, and that of GSMP on the control port: VPI 0, VCI 15 (RFC 1954, RFC
/// 1987).
pub const DEFAULT_CHANNEL: Channel = Channel { vpi: 0, vci: 15 };

/// How many VPIs of the control port stand for those of each port of a link. The numbering is this
/// project's own.
pub const VPIS_PER_PORT: u16 = 16;

/// An input or an output of a connection through a switch (an end): a port and a virtual channel of
/// it (RFC 1987, Connection Management Messages).
#[derive(Clone, Copy, Debug, PartialEq, Eq, Hash)]
pub struct End {
    /// The port.
    pub port: PortNo,
    /// The channel of that port.
    pub channel: Channel,
}

/// The channel of the control link that stands for `channel` of `port`: its VPI is 16 times the
/// port number higher.
pub fn on_control(port: PortNo, channel: Channel) -> Channel
    requires port { (1 ≤ port.0) × (port.0 ≤ 8) }
    requires vpi { channel.vpi < 16 }
    ensures { result ≡ channel_on_control port channel }
{
    Channel {
        vpi: VPIS_PER_PORT * port.0 as u16 + channel.vpi,
        vci: channel.vci,
    }
}
