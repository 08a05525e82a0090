//! What a controller asks of its switch (RFC 1987).

use gsmp_wire::Request;

/// A GSMP request message (RFC 1987) with the Port Session Number that it names.
#[derive(Clone, Copy, Debug, PartialEq, Eq)]
pub struct Asked {
    /// The session of the input port, or of the port that is managed; 0 where none is named.
    pub session: u32,
    /// The request.
    pub request: Request,
}
