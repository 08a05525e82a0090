//! The notes of a run: its records, and its loss ledger.

ghost use Rattle.std.specs.Prelude.{◌≡◌, [], ◌∷◌, ◌++◌, ◌≤◌, ◌↔◌, length, slice_get, option_copied, IsNone, IfOk, OnOk, OnErr};

use crate::ledger::Ledger;
use crate::record::Record;
use net_types::{Mark, OutOfMemory};
use std::alloc::Global;
use std::marker::Model;

/// The history variables of a run (its notes): the records since they were last cleared, and the
/// ledger and frames of the whole run. This project's own.
#[derive(Drop)]
pub struct Notes {
    records: Vec<Record>,
    ledger: Ledger,
}

impl Model for Notes {
    ghost use Rattle.link_model.specs.Notes.{Journal};

    ghost Value = { Journal };

    ghost view = { λ n. record { records = n.records.items; entries = n.ledger.entries; frames = n.ledger.frames } };
}

impl Notes {
    ghost use Rattle.link_model.specs.Notes.{noted, books_of};

    /// Notes with no record, no entry and no frame.
    pub fn open(alloc: Global) -> Result<Notes, OutOfMemory>
        ensures ok { IfOk result (λ n. n ≡ record { records = []; entries = []; frames = [] }) }
    {
        Ok(Notes {
            records: Vec::new(alloc),
            ledger: Ledger::open(alloc)?,
        })
    }

    /// Appends a record. The record of a loss enters its mark and cause in the ledger besides.
    /// Want of memory changes nothing.
    pub fn push(&mut self, item: Record) -> Result<(), OutOfMemory>
        ensures ok { OnOk result (self.new ≡ noted self.old item) }
        ensures err { OnErr result (self.new ≡ self.old) }
    {
        self.records.reserve(1)?;
        if let Record::Loss { mark, cause } = &item {
            self.ledger.enter(*mark, *cause)?;
        }
        self.records.push_reserved(item);
        Ok(())
    }

    /// Keeps `payload`, a list of octets, as that of the frame `mark`. In a run a mark is made
    /// once; of several payloads under one mark the latest counts. Want of memory changes nothing.
    pub fn made(&mut self, mark: Mark, payload: &[u8]) -> Result<(), OutOfMemory>
        ensures ok { OnOk result (self.new ≡ record self.old { frames = self.old.frames ++ record { mark = mark; payload = payload.now } ∷ [] }) }
        ensures err { OnErr result (self.new ≡ self.old) }
    {
        self.ledger.made(mark, payload)
    }

    /// The record at `place`, from 0.
    pub fn at(&self, place: usize) -> Option<&Record>
        ensures record { option_copied result ≡ slice_get self.now.records place }
        ensures none { IsNone result ↔ (length self.now.records ≤ place) }
    {
        self.records.get(place)
    }

    /// The number of records.
    pub fn len(&self) -> usize
        ensures { result ≡ length self.now.records }
    {
        self.records.len()
    }

    /// The records since they were last cleared, the first made first.
    pub fn records(&self) -> &[Record]
        ensures { result.now ≡ self.now.records }
    {
        self.records.as_slice()
    }

    /// Empties the list of records, and leaves the ledger and the frames.
    pub fn clear(&mut self)
        ensures { self.new ≡ record self.old { records = [] } }
    {
        self.records.clear();
    }

    /// The ledger of the run.
    pub fn ledger(&self) -> &Ledger
        ensures { result.now ≡ books_of self.now }
    {
        &self.ledger
    }
}
