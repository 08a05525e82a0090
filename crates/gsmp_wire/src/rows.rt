//! The records of an All Ports answer.

ghost use Rattle.std.specs.Prelude.{◌≡◌, ◌<◌, ◌≤◌, ◌++◌, ◌∷◌, ◌↔◌, [], length, slice_get, IsTrue};

use net_types::PORTS;
use std::marker::Model;

/// The most records that an answer has: one for each port.
pub const MOST_ROWS: usize = PORTS;

/// A port record of an All Ports Configuration message (RFC 1987): what a switch tells of one port.
#[derive(Clone, Copy, Debug, PartialEq, Eq)]
pub struct PortRow {
    /// The port.
    pub port: u32,
    /// Its session.
    pub session: u32,
    /// Whether it is up.
    pub up: bool,
    /// The least VCI that it takes.
    pub least: u16,
    /// The greatest VCI that it takes.
    pub greatest: u16,
}

/// What stands at the indices that aren't used yet.
const BLANK: PortRow = PortRow {
    port: 0,
    session: 0,
    up: false,
    least: 0,
    greatest: 0,
};

/// The port records of an All Ports Configuration message (RFC 1987): at most nine, seen as their
/// list. It takes no memory.
#[derive(Debug, Drop)]
pub struct PortRows {
    rows: [PortRow; MOST_ROWS],
    len: usize,
}

impl Model for PortRows {
    ghost use Rattle.std.specs.Prelude.{◌≡◌, ◌≤◌, List, length, take};
    ghost use Rattle.gsmp_wire.specs.declared.rows.PortRow.{PortRow};

    ghost Value = { List PortRow };

    ghost view = { λ r. take r.len r.rows };

    ghost invariant = { λ r. (r.len ≤ 9) × (length r.rows ≡ 9) };
}

impl PortRows {
    /// No records.
    pub fn new() -> PortRows
        ensures { result ≡ [] }
    {
        PortRows {
            rows: [BLANK; MOST_ROWS],
            len: 0,
        }
    }

    /// Puts a record at the end.
    pub fn push(&mut self, row: PortRow)
        requires { length self.old < 9 }
        ensures { self.new ≡ self.old ++ row ∷ [] }
    {
        self.rows[self.len] = row;
        self.len += 1;
    }

    /// How many there are.
    pub fn len(&self) -> usize
        ensures len { result ≡ length self.now }
        ensures most { length self.now ≤ 9 }
    {
        self.len
    }

    /// Whether there are none.
    pub fn is_empty(&self) -> bool
        ensures { IsTrue result ↔ (self.now ≡ []) }
    {
        self.len == 0
    }

    /// Reads them.
    pub fn as_slice(&self) -> &[PortRow]
        ensures rows { result.now ≡ self.now }
        ensures most { length self.now ≤ 9 }
    {
        &self.rows[..self.len]
    }

    /// The record at this index, counted from 0; none exactly where the index is at or above the
    /// length.
    pub fn at(&self, place: usize) -> Option<PortRow>
        ensures { result ≡ slice_get self.now place }
    {
        if place < self.len {
            Some(self.rows[place])
        } else {
            None
        }
    }
}
