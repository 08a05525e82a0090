//! A branch: what a switch knows of one input that it connects.

use atm_cells::Cell;
use net_types::{End, Mark};

/// A branch of a virtual channel connection (RFC 1987, Connection Management Messages): where the
/// cells of one input go, and the mark of the frame that isn't whole there yet.
#[derive(Clone, Copy, Debug)]
pub struct Branch {
    /// Where they go.
    pub output: End,
    /// The mark of the last cell that was queued there, if it wasn't the last one of its frame.
    pub unfinished: Option<Mark>,
}

impl Branch {
    ghost use Rattle.std.specs.Prelude.{◌≡◌};
    ghost use Rattle.crossbar_model.specs.Crossbar.{new_branch, unfinished_after};

    /// A branch to which no cell went yet.
    pub fn new(output: End) -> Branch
        ensures { result ≡ new_branch output }
    {
        Branch {
            output,
            unfinished: None,
        }
    }

    /// The branch after this cell went to it.
    pub fn after(self, cell: &Cell) -> Branch
        ensures { result ≡ record self { unfinished = unfinished_after cell.now } }
    {
        let unfinished = if cell.header.last {
            None
        } else {
            Some(cell.mark)
        };
        Branch {
            output: self.output,
            unfinished,
        }
    }
}
