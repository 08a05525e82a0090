//! The channels between two.

ghost use Rattle.std.specs.Prelude.{◌≡◌};
ghost use Rattle.branch_desk.specs.port_model.Setup.{channel_le, is_between};
ghost use Rattle.branch_desk.specs.port_model.Reclaiming.{greater_of, lesser_of};

use net_types::Channel;

/// The order of channels: by VPI, then by VCI.
fn is_at_most(a: Channel, b: Channel) -> bool
    ensures { result ≡ channel_le a b }
{
    a.vpi < b.vpi || (a.vpi == b.vpi && a.vci <= b.vci)
}

/// The channels between two, both among them. There is none where the first is the greater one.
#[derive(Clone, Copy, Debug)]
pub(crate) struct Between {
    pub(crate) from: Channel,
    pub(crate) to: Channel,
}

impl Between {
    /// Whether the channel is one of them.
    pub(crate) fn contains(&self, channel: Channel) -> bool
        ensures { result ≡ is_between self.now.from self.now.to channel }
    {
        is_at_most(self.from, channel) && is_at_most(channel, self.to)
    }

    /// Those that are also between two others.
    pub(crate) fn narrow(&mut self, from: Channel, to: Channel)
        ensures from { self.new.from ≡ greater_of self.old.from from }
        ensures to { self.new.to ≡ lesser_of self.old.to to }
    {
        if is_at_most(self.from, from) {
            self.from = from;
        }
        if !is_at_most(self.to, to) {
            self.to = to;
        }
    }
}
