//! The loss ledger of a run, beside the payloads of the frames that it made.

ghost use Rattle.std.specs.Prelude.{◌≡◌, [], ◌∷◌, ◌++◌, ◌≤◌, length, option_copied, slice_get, Any, Some, IsNone, IsTrue, ◌↔◌, IfOk, OnOk, OnErr};

use crate::entries::Entries;
use crate::frames::{Frame, Frames};
use crate::record::Cause;
use net_types::{Mark, OutOfMemory};
use std::alloc::Global;
use std::marker::Model;

/// The drop log of a run (its loss ledger): a list of entries, each the mark of a frame and a
/// cause. Beside it stand the payloads of the frames that the run made, each under its mark. This
/// project's own.
///
/// The look-ups go by a hash of the mark, whatever the number of entries and frames.
#[derive(Drop)]
pub struct Ledger {
    entries: Entries,
    frames: Frames,
}

impl Model for Ledger {
    ghost use Rattle.link_model.specs.Ledger.{Books};

    ghost Value = { Books };

    ghost view = { λ l. record { entries = l.entries; frames = l.frames } };
}

impl Ledger {
    ghost use Rattle.link_model.specs.Ledger.{has_entry, payload_of, is_frame};

    /// A ledger with no entry and no frame.
    pub fn open(alloc: Global) -> Result<Ledger, OutOfMemory>
        ensures ok { IfOk result (λ l. l ≡ record { entries = []; frames = [] }) }
    {
        Ok(Ledger {
            entries: Entries::new(alloc),
            frames: Frames::new(alloc),
        })
    }

    /// Enters `cause` for `mark`, as the last entry. Want of memory changes nothing.
    pub fn enter(&mut self, mark: Mark, cause: Cause) -> Result<(), OutOfMemory>
        ensures ok { OnOk result (self.new ≡ record self.old { entries = self.old.entries ++ record { mark = mark; cause = cause } ∷ [] }) }
        ensures err { OnErr result (self.new ≡ self.old) }
    {
        self.entries.push(mark, cause)
    }

    /// Keeps `payload`, a list of octets, as that of the frame `mark`. In a run a mark is made
    /// once; of several payloads under one mark the latest counts. Want of memory changes nothing.
    pub fn made(&mut self, mark: Mark, payload: &[u8]) -> Result<(), OutOfMemory>
        ensures ok { OnOk result (self.new ≡ record self.old { frames = self.old.frames ++ record { mark = mark; payload = payload.now } ∷ [] }) }
        ensures err { OnErr result (self.new ≡ self.old) }
    {
        self.frames.push(mark, payload)
    }

    /// Whether `mark` has an entry.
    pub fn has(&self, mark: Mark) -> bool
        ensures has { result ≡ has_entry self.now.entries mark }
        ensures entry { IsTrue result ↔ Any (λ entry. entry.mark ≡ mark) self.now.entries }
    {
        self.entries.has(mark)
    }

    /// Whether `payload` is what `made` kept under `mark`.
    pub fn is_frame(&self, mark: Mark, payload: &[u8]) -> bool
        ensures is_frame { result ≡ is_frame self.now.frames mark payload.now }
        ensures kept { IsTrue result ↔ (payload_of self.now.frames mark ≡ Some payload.now) }
    {
        match self.frames.payload_of(mark) {
            Some(kept) => kept == payload,
            None => false,
        }
    }

    /// The payload that `made` kept last under `mark`. None exactly where it kept none.
    pub fn payload(&self, mark: Mark) -> Option<&[u8]>
        ensures { option_copied result ≡ payload_of self.now.frames mark }
    {
        self.frames.payload_of(mark)
    }

    /// The number of frames that were made.
    pub fn made_count(&self) -> usize
        ensures { result ≡ length self.now.frames }
    {
        self.frames.len()
    }

    /// The frame at `place`, from 0, in the order of their making.
    pub fn frame(&self, place: usize) -> Option<&Frame>
        ensures frame { option_copied result ≡ slice_get self.now.frames place }
        ensures none { IsNone result ↔ (length self.now.frames ≤ place) }
    {
        self.frames.at(place)
    }
}
