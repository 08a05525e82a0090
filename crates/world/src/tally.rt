//! What is counted in a run. A number that is at its type's end stays there.

ghost use Rattle.std.specs.Prelude.{◌≡◌, ◌≤◌, ◌+◌, ◌^◌, fold, min};
ghost use Rattle.port_model.specs.Redirection.{greatest_tally};
ghost use Rattle.world_model.specs.World.{no_tally, one_tallied};

use link_model::Record;
use std::marker::Model;

/// The counters of a run: how many records of each counted kind there were.
#[derive(Debug, Drop)]
pub struct Tally {
    pub(crate) delivered: u64,
    pub(crate) dropped: u64,
    pub(crate) refused: u64,
    pub(crate) losses: u64,
    pub(crate) chance: u64,
}

impl Model for Tally {
    ghost use Rattle.world_model.specs.World.{Tally as Tallied};

    ghost Value = { Tallied };

    ghost view = { λ t. record { delivered = t.delivered; dropped = t.dropped; refused = t.refused; losses = t.losses; chance = t.chance } };
}

impl Tally {
    /// Nothing was counted.
    pub fn new() -> Tally
        ensures { result ≡ no_tally }
    {
        Tally {
            delivered: 0,
            dropped: 0,
            refused: 0,
            losses: 0,
            chance: 0,
        }
    }

    /// Counts a record, where its kind is counted.
    fn add(&mut self, item: &Record)
        ensures { self.new ≡ one_tallied self.old item.now }
    {
        match item {
            Record::Delivered { .. } => self.delivered = self.delivered.saturating_add(1),
            Record::Dropped { .. } => self.dropped = self.dropped.saturating_add(1),
            Record::Refused { .. } => self.refused = self.refused.saturating_add(1),
            Record::Loss { .. } => self.losses = self.losses.saturating_add(1),
            Record::Chance { .. } => self.chance = self.chance.saturating_add(1),
            Record::Opened { .. }
            | Record::Closed { .. }
            | Record::Bind { .. }
            | Record::Free { .. }
            | Record::Join { .. }
            | Record::Part { .. }
            | Record::Bad { .. }
            | Record::Forged { .. }
            | Record::Routes { .. } => {}
        }
    }

    /// Counts records.
    pub fn count(&mut self, records: &[Record])
        ensures { self.new ≡ fold one_tallied self.old records.now }
    {
        for item in records {
            self.add(item);
        }
    }
}

/// A sum over all nodes, of 128 bits.
#[derive(Debug, Drop)]
pub struct Total {
    sum: u128,
}

impl Model for Total {
    ghost use Rattle.std.specs.Prelude.{ℕ};

    ghost Value = { ℕ };

    ghost view = { λ t. t.sum };
}

impl Total {
    /// Nothing to sum up.
    pub fn new() -> Total
        ensures { result ≡ 0 }
    {
        Total { sum: 0 }
    }

    /// One of the summands changes.
    pub fn replace(&mut self, before: u64, after: u64)
        requires summand { before ≤ self.old }
        requires room { self.old ≤ 2 ^ 126 }
        ensures { self.new + before ≡ self.old + after }
    {
        self.sum = self.sum - u128::from(before) + u128::from(after);
    }

    /// The sum, or the greatest number of its type.
    pub fn sum(&self) -> u64
        ensures { result ≡ min greatest_tally self.now }
    {
        self.sum.min(u128::from(u64::MAX)) as u64
    }
}
