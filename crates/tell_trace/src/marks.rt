//! The frames that were told.

ghost use Rattle.std.specs.Prelude.{◌≡◌, ◌++◌, ◌∷◌, [], false, OnOk, OnErr};
ghost use Rattle.std.specs.List.{list_any};
ghost use Rattle.link_model.specs.Ledger.{same_mark};

use indexmap::IndexSet;
use net_types::{Mark, OutOfMemory};
use std::alloc::Global;
use std::marker::Model;

/// The marks of the frames that were told, the earlier told first.
#[derive(Drop)]
pub(crate) struct ToldMarks {
    set: IndexSet<Mark>,
}

impl Model for ToldMarks {
    ghost use Rattle.std.specs.Prelude.{List};
    ghost use Rattle.net_types.specs.declared.number.Mark.{Mark as Of};

    ghost Value = { List Of };

    ghost view = { λ m. m.set.keys };
}

impl ToldMarks {
    /// None.
    pub(crate) fn new(alloc: Global) -> ToldMarks
        ensures { result ≡ [] }
    {
        ToldMarks {
            set: IndexSet::new(alloc),
        }
    }

    /// Forgets them all.
    pub(crate) fn clear(&mut self)
        ensures { self.new ≡ [] }
    {
        self.set.clear();
    }

    /// Whether the frame was told.
    pub(crate) fn has(&self, mark: Mark) -> bool
        ensures { result ≡ list_any (same_mark mark) self.now }
    {
        self.set.contains(&mark)
    }

    /// The frame is told now. Want of memory changes nothing.
    pub(crate) fn tell(&mut self, mark: Mark) -> Result<(), OutOfMemory>
        requires { list_any (same_mark mark) self.old ≡ false }
        ensures ok { OnOk result (self.new ≡ self.old ++ mark ∷ []) }
        ensures err { OnErr result (self.new ≡ self.old) }
    {
        self.set.insert(mark)?;
        Ok(())
    }
}
