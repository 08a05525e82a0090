//! The taps of all queues and channels.

ghost use Rattle.std.specs.Prelude.{◌≡◌, ◌<◌, [], length, position, slice_get, None, Some, IfOk, OnOk};
ghost use Rattle.frame_packets.specs.Taps.{tap_cleared, cell_tapped, keys_of, same_key, tap_at};

use crate::queue::TapKey;
use crate::tap::Tap;
use atm_cells::Cell;
use indexmap::IndexSet;
use net_types::OutOfMemory;
use std::alloc::Global;
use std::marker::Model;

/// The reassembly buffers of a capture (its taps), one for each channel of a queue on which a cell
/// was carried: all their cells stand in one region, at most 32 for each, which grows as such
/// channels come. A tap is found by a hash of its key.
#[derive(Drop)]
pub struct Taps {
    keys: IndexSet<TapKey>,
    list: Vec<Tap>,
}

impl Model for Taps {
    ghost use Rattle.std.specs.Prelude.{◌≡◌, List};
    ghost use Rattle.frame_packets.specs.Taps.{Tap as Tapped, keys_of};

    ghost Value = { List Tapped };

    ghost view = { λ t. t.list.items };

    ghost invariant = { λ t. t.keys.keys ≡ keys_of t.list.items };
}

impl Taps {
    /// No taps.
    pub fn new(alloc: Global) -> Taps
        ensures { result ≡ [] }
    {
        Taps {
            keys: IndexSet::new(alloc),
            list: Vec::new(alloc),
        }
    }

    /// A tap that isn't there takes its first cell. Answers its index.
    fn add(&mut self, key: TapKey, cell: &Cell) -> Result<usize, OutOfMemory>
        requires absent { position (same_key key) (keys_of self.old) ≡ None }
        ensures joined { OnOk result (self.new ≡ cell_tapped self.old key cell.now) }
        ensures place { IfOk result (λ place. slice_get self.new place ≡ Some (tap_at self.new key)) }
    {
        let place = self.list.len();
        self.list.reserve(1)?;
        self.keys.insert(key)?;
        let mut tap = Tap::new(key);
        tap.push(cell);
        self.list.push_reserved(tap);
        Ok(place)
    }

    /// A cell joins its tap. Answers the tap's index.
    pub fn join(&mut self, key: TapKey, cell: &Cell) -> Result<usize, OutOfMemory>
        ensures joined { OnOk result (self.new ≡ cell_tapped self.old key cell.now) }
        ensures place { IfOk result (λ place. slice_get self.new place ≡ Some (tap_at self.new key)) }
    {
        match self.keys.get_index_of(&key) {
            Some(place) => {
                self.list[place].push(cell);
                Ok(place)
            }
            None => self.add(key, cell),
        }
    }

    /// The tap at an index.
    pub fn at(&self, place: usize) -> &Tap
        requires { place < length self.now }
        ensures { slice_get self.now place ≡ Some result.now }
    {
        &self.list[place]
    }

    /// A tap has no cells, where it is there.
    pub fn clear(&mut self, key: TapKey)
        ensures { self.new ≡ tap_cleared self.old key }
    {
        if let Some(place) = self.keys.get_index_of(&key) {
            self.list[place].clear();
        }
    }
}
