//! The payloads of the frames that a run made, and the index of the latest one of each mark.

ghost use Rattle.std.specs.Prelude.{◌≡◌, [], ◌∷◌, ◌++◌, length, option_copied, slice_get, OnOk, OnErr};

use net_types::{Mark, Octets, OutOfMemory};
use std::alloc::Global;
use std::collections::HashMap;
use std::marker::Model;

/// A CPCS-SDU that a run made (a frame; I.363.5): the octets that were segmented, under the frame's
/// mark.
#[derive(Debug, Drop)]
pub struct Frame {
    /// Its mark.
    pub mark: Mark,
    /// The octets that were segmented.
    pub payload: Octets,
}

/// A log of frames, in the order of their making.
#[derive(Drop)]
pub struct Frames {
    list: Vec<Frame>,
    latest: HashMap<Mark, usize>,
}

impl Model for Frames {
    ghost use Rattle.std.specs.Prelude.{List};
    ghost use Rattle.link_model.specs.declared.frames.Frame.{Frame};
    ghost use Rattle.link_model.specs.Indexes.{LeadsToLatest};

    ghost Value = { List Frame };

    ghost view = { λ f. f.list.items };

    ghost invariant = { λ f. LeadsToLatest f.latest f.list.items };
}

impl Frames {
    ghost use Rattle.link_model.specs.Ledger.{payload_of};

    /// No frames.
    pub fn new(alloc: Global) -> Frames
        ensures { result ≡ [] }
    {
        Frames {
            list: Vec::new(alloc),
            latest: HashMap::new(alloc),
        }
    }

    /// Appends a frame.
    pub fn push(&mut self, mark: Mark, payload: &[u8]) -> Result<(), OutOfMemory>
        ensures ok { OnOk result (self.new ≡ self.old ++ record { mark = mark; payload = payload.now } ∷ []) }
        ensures err { OnErr result (self.new ≡ self.old) }
    {
        let payload = Octets::new(payload.to_vec(*self.list.allocator())?);
        self.list.reserve(1)?;
        self.latest.insert(mark, self.list.len())?;
        self.list.push_reserved(Frame { mark, payload });
        Ok(())
    }

    /// The payload of the latest frame of the mark, if there is one.
    pub fn payload_of(&self, mark: Mark) -> Option<&[u8]>
        ensures { option_copied result ≡ payload_of self.now mark }
    {
        let place = self.latest.get(&mark)?;
        Some(self.list[*place].payload.as_slice())
    }

    /// The number of frames.
    pub fn len(&self) -> usize
        ensures { result ≡ length self.now }
    {
        self.list.len()
    }

    /// The frame at `place`, from 0.
    pub fn at(&self, place: usize) -> Option<&Frame>
        ensures { option_copied result ≡ slice_get self.now place }
    {
        self.list.get(place)
    }
}
