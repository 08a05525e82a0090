//! The entries of a loss ledger, and the set of their marks.

ghost use Rattle.std.specs.Prelude.{◌≡◌, [], ◌∷◌, ◌++◌, OnOk, OnErr};

use crate::record::Cause;
use net_types::{Mark, OutOfMemory};
use std::alloc::Global;
use std::collections::HashSet;
use std::marker::Model;

/// A drop with its drop reason (an entry of the loss ledger): the mark of a frame that may be gone,
/// and the cause. This project's own.
#[derive(Clone, Copy, Debug, PartialEq, Eq)]
pub struct Entry {
    /// The frame that may be gone.
    pub mark: Mark,
    /// Why.
    pub cause: Cause,
}

/// A drop log: the entries of a loss ledger, in the order of their entering.
#[derive(Drop)]
pub struct Entries {
    list: Vec<Entry>,
    marks: HashSet<Mark>,
}

impl Entries {
    ghost use Rattle.link_model.specs.Ledger.{has_entry};

    /// No entries.
    pub fn new(alloc: Global) -> Entries
        ensures { result ≡ [] }
    {
        Entries {
            list: Vec::new(alloc),
            marks: HashSet::new(alloc),
        }
    }

    /// Appends an entry.
    pub fn push(&mut self, mark: Mark, cause: Cause) -> Result<(), OutOfMemory>
        ensures ok { OnOk result (self.new ≡ self.old ++ record { mark = mark; cause = cause } ∷ []) }
        ensures err { OnErr result (self.new ≡ self.old) }
    {
        self.list.reserve(1)?;
        self.marks.insert(mark)?;
        self.list.push_reserved(Entry { mark, cause });
        Ok(())
    }

    /// Whether an entry has the mark.
    pub fn has(&self, mark: Mark) -> bool
        ensures { result ≡ has_entry self.now mark }
    {
        self.marks.contains(&mark)
    }
}

impl Model for Entries {
    ghost use Rattle.std.specs.Prelude.{List};
    ghost use Rattle.link_model.specs.declared.entries.Entry.{Entry};
    ghost use Rattle.link_model.specs.Indexes.{HasMarks};

    ghost Value = { List Entry };

    ghost view = { λ e. e.list.items };

    ghost invariant = { λ e. HasMarks e.marks e.list.items };
}
