//! What is set for a whole network.

/// The X and Y of an X/Y flow classifier (Newman, Minshall and Lyon): from how many packets in how
/// many ticks on a flow is offered a label.
#[derive(Clone, Copy)]
pub struct Threshold {
    /// How many packets, 1 to 65,535.
    pub packets: u32,
    /// How many ticks, 1 to 64.
    pub ticks: u32,
}

/// The protocol timers of labels, in ticks: for how long a REDIRECT (RFC 1953) holds, after how
/// long it is sent again, and for how long a label may be idle.
#[derive(Clone, Copy)]
pub struct Spans {
    /// A Redirect's lifetime.
    pub lifetime: u16,
    /// The time between two of them.
    pub refresh: u16,
    /// The time without a packet.
    pub idle: u16,
}
