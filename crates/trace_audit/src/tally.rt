//! How much of a trace was read.

ghost use Rattle.std.specs.Prelude.{◌+◌, ◌<◌, ◌≤◌};

/// The counters of an audit: how many lines of each kind a trace has. This project's own.
#[derive(Clone, Copy, Debug, PartialEq, Eq)]
pub struct AuditCounts {
    /// Of `link`.
    pub links: u64,
    /// Of `put`.
    pub puts: u64,
    /// Of `bind`.
    pub binds: u64,
}

/// A counter of the octets of the lines so far, and of how many of these lines are of each kind.
#[derive(Clone, Copy)]
pub struct Tally {
    octets: u32,
    counts: AuditCounts,
    ghost within: { octets < 16777217 },
    ghost few: { counts.links + (counts.puts + counts.binds) ≤ octets },
}

impl Tally {
    ghost use Rattle.std.specs.Prelude.{◌≡◌};
    ghost use Rattle.trace_audit.specs.Tally.{has_room};

    /// Nothing is read yet.
    pub fn new() -> Tally
        ensures octets { result.octets ≡ 0 }
        ensures counts { result.counts ≡ record { links = 0; puts = 0; binds = 0 } }
    {
        Tally {
            octets: 0,
            counts: AuditCounts {
                links: 0,
                puts: 0,
                binds: 0,
            },
        }
    }

    /// How many octets the lines so far have.
    pub fn octets(&self) -> u32
        ensures octets { result ≡ self.now.octets }
        ensures within { result < 16777217 }
    {
        self.octets
    }

    /// How many lines there are.
    pub fn counts(&self) -> AuditCounts
        ensures { result ≡ self.now.counts }
    {
        self.counts
    }

    /// With the octets of one more line.
    pub fn with_octets(&self, octets: usize) -> Tally
        requires { self.now.octets + octets < 16777217 }
        ensures octets { result.octets ≡ self.now.octets + octets }
        ensures counts { result.counts ≡ self.now.counts }
    {
        Tally {
            octets: self.octets + octets as u32,
            counts: self.counts,
        }
    }

    /// With one more `link`, of a line whose octets are counted.
    pub fn with_link(&self) -> Tally
        requires { has_room self.now }
        ensures octets { result.octets ≡ self.now.octets }
        ensures counts { result.counts ≡ record self.now.counts { links = self.now.counts.links + 1 } }
    {
        let mut counts = self.counts;
        counts.links += 1;
        Tally {
            octets: self.octets,
            counts,
        }
    }

    /// With one more `put`, of a line whose octets are counted.
    pub fn with_put(&self) -> Tally
        requires { has_room self.now }
        ensures octets { result.octets ≡ self.now.octets }
        ensures counts { result.counts ≡ record self.now.counts { puts = self.now.counts.puts + 1 } }
    {
        let mut counts = self.counts;
        counts.puts += 1;
        Tally {
            octets: self.octets,
            counts,
        }
    }

    /// With one more `bind`, of a line whose octets are counted.
    pub fn with_bind(&self) -> Tally
        requires { has_room self.now }
        ensures octets { result.octets ≡ self.now.octets }
        ensures counts { result.counts ≡ record self.now.counts { binds = self.now.counts.binds + 1 } }
    {
        let mut counts = self.counts;
        counts.binds += 1;
        Tally {
            octets: self.octets,
            counts,
        }
    }
}
