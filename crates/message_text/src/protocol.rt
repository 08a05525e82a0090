//! Whose messages are decoded.

/// A control protocol whose messages have a text: IFMP (RFC 1953) or GSMP (RFC 1987).
#[derive(Clone, Copy, Debug, PartialEq, Eq)]
pub enum Protocol {
    /// The Ipsilon Flow Management Protocol (RFC 1953).
    Ifmp,
    /// The General Switch Management Protocol (RFC 1987).
    Gsmp,
}
