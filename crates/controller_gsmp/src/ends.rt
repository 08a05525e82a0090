//! The channels of a port, and those of the control link that stand for them.

ghost use Rattle.std.specs.Prelude.{◌≡◌, ◌≤◌, ◌<◌, IsTrue};
ghost use Rattle.net_types.specs.Label.{is_label_number};
ghost use Rattle.world_model.specs.port_model.Setup.{home_of, label_end};
ghost use Rattle.world_model.specs.Controller.{default_end};

use net_types::{CONTROL_PORT, DEFAULT_CHANNEL, End, PortNo, label_channel, on_control};

/// The default channel of a port.
pub fn default_end(port: PortNo) -> End
    ensures { result ≡ default_end port }
{
    End {
        port,
        channel: DEFAULT_CHANNEL,
    }
}

/// The channel of a label of a port.
pub fn label_end(port: PortNo, label: u16) -> End
    requires { IsTrue (is_label_number label) }
    ensures { result ≡ label_end port label }
{
    End {
        port,
        channel: label_channel(label),
    }
}

/// The channel of the control link that stands for a channel of a port.
pub fn home_of(end: End) -> End
    requires port { (1 ≤ end.port.0) × (end.port.0 ≤ 8) }
    requires vpi { end.channel.vpi < 16 }
    ensures { result ≡ home_of end }
{
    End {
        port: CONTROL_PORT,
        channel: on_control(end.port, end.channel),
    }
}
