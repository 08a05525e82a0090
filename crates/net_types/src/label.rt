//! The channels that a flow can be redirected to, by their numbers.

ghost use Rattle.std.specs.Prelude.{◌≡◌, ℕ, IsTrue, Some};
ghost use Rattle.net_types.specs.declared.channel.Channel.{Channel};
ghost use Rattle.net_types.specs.Label.{is_label_channel, is_label_number, is_label_vci, label_channel_of, label_number_of, number_of_channel};

use crate::channel::Channel;

/// How many numbers each VPI has.
const NUMBERS_PER_VPI: u16 = 1024;

/// How many VPIs labels have, from 0 on. It is this project's own limit.
pub const LABEL_VPIS: u16 = 16;

/// The least VCI of a label: those below are reserved (I.361 2.2).
pub const LEAST_LABEL_VCI: u16 = 32;

/// The greatest VCI of a label. It is this project's own limit.
pub const GREATEST_LABEL_VCI: u16 = 1023;

/// Whether there is a label of this number: its VPI is 0 to 15 and its VCI 32 to 1023.
pub fn is_label_number(number: u16) -> bool
    ensures { result ≡ is_label_number number }
{
    number / NUMBERS_PER_VPI < LABEL_VPIS && number % NUMBERS_PER_VPI >= LEAST_LABEL_VCI
}

/// The channel of this number, be it a label's or not: VPI number / 1024, VCI number mod 1024.
pub fn numbered_channel(number: u16) -> Channel
    ensures { result ≡ label_channel_of number }
{
    Channel {
        vpi: number / NUMBERS_PER_VPI,
        vci: number % NUMBERS_PER_VPI,
    }
}

/// The channel of the label of this number, as [`numbered_channel`] has it. The number has to be one of
/// a label.
pub fn label_channel(number: u16) -> Channel
    requires { IsTrue (is_label_number number) }
    ensures { result ≡ label_channel_of number }
{
    numbered_channel(number)
}

/// How many labels a port can hold at most: as many as there are numbers.
pub const MOST_LABELS: usize = LABEL_VPIS as usize * NUMBERS_PER_VPI as usize;

/// Whether a VCI can be a label's: 32 to 1023.
pub fn is_label_vci(vci: u16) -> bool
    ensures { result ≡ is_label_vci vci }
{
    LEAST_LABEL_VCI <= vci && vci <= GREATEST_LABEL_VCI
}

/// Whether the channel can be a label's: VPI 0 to 15, VCI 32 to 1023.
pub fn is_label(channel: Channel) -> bool
    ensures { result ≡ is_label_channel channel }
{
    channel.vpi < LABEL_VPIS && is_label_vci(channel.vci)
}

/// The number of the label on this channel, VPI * 1024 + VCI; `None` exactly where the channel is
/// none of a label: where its VPI isn't 0 to 15 or its VCI isn't 32 to 1023.
pub fn label_number(channel: Channel) -> Option<u16>
    ensures { result ≡ label_number_of channel }
{
    if is_label(channel) {
        Some(channel.vpi * NUMBERS_PER_VPI + channel.vci)
    } else {
        None
    }
}

/// A label is known by its number as well as by its channel: each is found back from the other.
pub fn labels_are_numbered()
    ensures number { (number : ℕ) → IsTrue (is_label_number number) → label_number_of (label_channel_of number) ≡ Some number }
    ensures channel { (channel : Channel) → IsTrue (is_label_channel channel) → label_channel_of (number_of_channel channel) ≡ channel }
{}
