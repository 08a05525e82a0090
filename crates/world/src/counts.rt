//! What is counted in a run.

ghost use Rattle.std.specs.Prelude.{◌≡◌};
ghost use Rattle.world.specs.Counted.{nothing_counted};

use std::marker::Model;

/// The statistics of a run: the numbers of a report's last line, but that of its events. Each stays
/// at its type's end. This project's own.
#[derive(Clone, Copy, Debug, PartialEq, Eq)]
pub struct Counts {
    /// How many packets were to be sent.
    pub sent: u64,
    /// How many were delivered.
    pub delivered: u64,
    /// How many were dropped.
    pub dropped: u64,
    /// How many were refused where they were to be sent.
    pub refused: u64,
    /// How many entries the ledger of losses has.
    pub losses: u64,
    /// How many REDIRECTs were accepted.
    pub redirects: u64,
    /// How many cells went from a port of a link to a port of a link.
    pub switched: u64,
    /// How many frames of wrong octets passed their test.
    pub chance: u64,
}

impl Model for Counts {
    ghost use Rattle.world_model.specs.World.{Counts as Counted};

    ghost Value = { Counted };

    ghost view = { λ c. record { sent = c.sent; delivered = c.delivered; dropped = c.dropped; refused = c.refused; losses = c.losses; redirects = c.redirects; switched = c.switched; chance = c.chance } };

    ghost inverse = { λ c. record { sent = c.sent; delivered = c.delivered; dropped = c.dropped; refused = c.refused; losses = c.losses; redirects = c.redirects; switched = c.switched; chance = c.chance } };
}

/// A progress counter of a run (a meter): the events that a world has stepped since its opening,
/// and its counts then. [`World::step`](crate::World::step) alone sets it. This project's own.
#[derive(Clone, Copy, Debug, PartialEq, Eq)]
pub struct Meter {
    events: u64,
    counts: Counts,
}

impl Meter {
    /// Zeros.
    pub fn new() -> Meter
        ensures { result ≡ record { events = 0; counts = nothing_counted } }
    {
        Meter {
            events: 0,
            counts: Counts {
                sent: 0,
                delivered: 0,
                dropped: 0,
                refused: 0,
                losses: 0,
                redirects: 0,
                switched: 0,
                chance: 0,
            },
        }
    }

    /// What a world has come to.
    pub(crate) fn at(events: u64, counts: Counts) -> Meter
        ensures { result ≡ record { events = events; counts = counts } }
    {
        Meter { events, counts }
    }

    /// How many events there were.
    pub fn events(&self) -> u64
        ensures { result ≡ self.now.events }
    {
        self.events
    }

    /// The counts.
    pub fn counts(&self) -> Counts
        ensures { result ≡ self.now.counts }
    {
        self.counts
    }
}
