//! A cell as a value.

use net_types::{Channel, Mark};

/// An ATM cell header (I.361 2.2), as far as it differs from cell to cell: the virtual channel, and
/// whether the Payload Type marks the last cell of a frame.
#[derive(Clone, Copy, Debug, PartialEq, Eq)]
pub struct Header {
    /// The virtual channel that the cell is on.
    pub channel: Channel,
    /// Whether it is the last cell of its AAL5 frame.
    pub last: bool,
}

/// An ATM cell (I.361): its header and 48 octets of payload, and beside them the mark of the
/// frame that it belongs to, which is this project's own.
#[derive(Clone, Copy, Debug, PartialEq, Eq)]
pub struct Cell {
    /// Its header.
    pub header: Header,
    /// Its 48 octets of payload.
    pub payload: [u8; 48],
    /// Its frame's mark, which no octet on a link has.
    pub mark: Mark,
}

/// What stands in a slot before a cell is written there.
pub const BLANK_CELL: Cell = Cell {
    header: Header {
        channel: Channel { vpi: 0, vci: 0 },
        last: false,
    },
    payload: [0; 48],
    mark: Mark {
        packet: 0,
        frame: 0,
    },
};
