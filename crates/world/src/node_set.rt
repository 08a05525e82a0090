//! Sets of nodes.

ghost use Rattle.std.specs.Prelude.{◌≡◌, ◌≤◌, ◌<◌, ℕ, false};
ghost use Rattle.world.specs.NodeSet.{IsFirstIn, IsInserted, IsRemoved, is_in};

/// Some of the first 64 nodes, each by its index in the order of their numbers, counted from 0.
#[derive(Debug, Drop)]
pub(crate) struct NodeSet {
    bits: u64,
}

impl NodeSet {
    /// No node.
    pub(crate) fn empty() -> NodeSet
        ensures { (place : ℕ) → is_in result place ≡ false }
    {
        NodeSet { bits: 0 }
    }

    /// The node at this index joins them.
    pub(crate) fn insert(&mut self, place: usize)
        requires { place < 64 }
        ensures { IsInserted self.old self.new place }
    {
        self.bits |= 1 << place;
    }

    /// The node at this index is none of them any more.
    pub(crate) fn remove(&mut self, place: usize)
        requires { place < 64 }
        ensures { IsRemoved self.old self.new place }
    {
        let bits = self.bits;
        self.bits = bits & !(1 << place);
    }

    /// The first of them from this index on, below an end of at most 64.
    pub(crate) fn first_in(&self, from: usize, end: usize) -> Option<usize>
        requires { (from < end) × (end ≤ 64) }
        ensures { IsFirstIn self.now from end result }
    {
        let behind = self.bits >> from;
        if behind == 0 {
            return None;
        }
        let place = from + behind.trailing_zeros() as usize;
        if place < end { Some(place) } else { None }
    }
}
