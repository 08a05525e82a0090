//! Channels of the control link.

use net_types::PortNo;

/// The user of a virtual channel of the control link: who takes its cells. This project's own.
#[derive(Clone, Copy, Debug, PartialEq, Eq)]
pub enum Taker {
    /// GSMP's channel.
    Gsmp,
    /// The default channel of a linked port.
    Default(PortNo),
    /// The channel of a label of a linked port, by the label's number.
    Label(PortNo, u16),
}
