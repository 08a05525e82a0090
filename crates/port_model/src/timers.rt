//! The times of a port.

/// The protocol timers of a port, in ticks: the lifetime of a REDIRECT (RFC 1953), the time to its
/// refresh, and the measuring interval of a flow classifier.
#[derive(Clone, Copy, Debug, PartialEq, Eq)]
pub struct Timers {
    /// How long a flow may use a label after a REDIRECT, 1 to 65,535.
    pub lifetime: u16,
    /// How many ticks after a REDIRECT it is sent again, 1 to 65,535.
    pub refresh: u16,
    /// Over how many ticks the packets of a flow are counted, 1 to 64.
    pub window: usize,
}
