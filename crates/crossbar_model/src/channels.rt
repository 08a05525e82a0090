//! The channels that a switch connects.

ghost use Rattle.std.specs.Prelude.{◌≡◌};
ghost use Rattle.crossbar_model.specs.Channels.{is_channel_of, is_connectable, is_link_channel};

use net_types::{CONTROL_PORT, Channel, DEFAULT_CHANNEL, End, PortNo, VPIS_PER_PORT, is_label_vci};

/// Whether this is the default channel of a link, or a label with a VPI below `vpis`.
fn is_link_channel(vpis: u8, channel: Channel) -> bool
    ensures { result ≡ is_link_channel vpis channel }
{
    channel == DEFAULT_CHANNEL || channel.vpi < vpis as u16 && is_label_vci(channel.vci)
}

/// Whether this is such a channel of the port, there or on the control port.
fn is_channel_of(port: PortNo, vpis: u8, end: End) -> bool
    ensures { result ≡ is_channel_of port vpis end }
{
    if port == CONTROL_PORT {
        return false;
    }
    if end.port != CONTROL_PORT {
        return end.port == port && is_link_channel(vpis, end.channel);
    }
    let first = VPIS_PER_PORT * port.0 as u16;
    let Channel { vpi, vci } = end.channel;
    if vpi < first {
        return false;
    }
    let vpi = vpi - first;
    is_link_channel(vpis, Channel { vpi, vci })
}

/// Whether a switch with these ports of links can connect a channel.
///
/// On a port above 0, one of `ports`, it connects VPI 0 with VCI 15, and each VPI below `vpis` with
/// VCI 32 to 1023; on port 0 it connects VPI 16p + x with VCI v where p is one of `ports` and x/v is
/// such a channel of p. That `ports` has port 0 or lacks it makes no difference.
pub fn is_connectable(ports: &[PortNo], vpis: u8, end: End) -> bool
    ensures { result ≡ is_connectable ports.now vpis end }
{
    ports.iter().any(|port| is_channel_of(*port, vpis, end))
}
