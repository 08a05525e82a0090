//! What a message of the switch means to a desk.

ghost use Rattle.std.specs.Prelude.{◌≡◌, ◌↔◌, [], length, take, slice_get, option_map, IsTrue};
ghost use Rattle.gsmp_wire.specs.declared.rows.PortRow.{PortRow};

use crate::ticket::BranchDone;
use gsmp_wire::PortRows;
use std::marker::Model;

/// The port table of a switch: at most nine ports, as its answer to All Ports Configuration (RFC
/// 1987) told them.
#[derive(Debug, Drop)]
pub struct Ports {
    rows: PortRows,
}

impl Model for Ports {
    ghost use Rattle.std.specs.Prelude.{List};
    ghost use Rattle.gsmp_wire.specs.declared.rows.PortRow.{PortRow};

    ghost Value = { List PortRow };

    ghost view = { λ p. p.rows };
}

/// A copy of records.
pub(crate) fn copied(rows: &PortRows) -> PortRows
    ensures { result ≡ rows.now }
{
    let mut copy = PortRows::new();
    for row in rows.as_slice() {
        copy.push(*row);
    }
    copy
}

impl Ports {
    /// The ports of these records.
    pub(crate) fn new(rows: PortRows) -> Ports
        ensures { result ≡ rows }
    {
        Ports { rows }
    }

    /// How many there are.
    pub fn len(&self) -> usize
        ensures { result ≡ length self.now }
    {
        self.rows.len()
    }

    /// Whether there are none.
    pub fn is_empty(&self) -> bool
        ensures { IsTrue result ↔ (self.now ≡ []) }
    {
        self.rows.is_empty()
    }

    /// The number of the port at this index, counted from 0, its session, and whether it is up; none
    /// exactly where the index is at or above the length.
    pub fn at(&self, place: usize) -> Option<(u32, u32, bool)>
        ensures { result ≡ option_map (λ (row : PortRow). (row.port, row.session, row.up)) (slice_get self.now place) }
    {
        self.rows
            .at(place)
            .map(|row| (row.port, row.session, row.up))
    }
}

/// The response to an outstanding request (RFC 1987): what a message of the switch means to a desk.
/// A request that is answered stands no longer.
#[derive(Debug)]
pub enum Answered {
    /// No standing request has its number and type, or it is no answer.
    Unknown,
    /// The request is done.
    Done(BranchDone),
    /// All Ports is done, and these are the ports.
    Ports(Ports, BranchDone),
    /// The request failed.
    Failed {
        /// Its transaction number.
        number: u32,
        /// The switch's code for the cause.
        code: u8,
    },
}
