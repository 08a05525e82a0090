//! A sink that keeps what it takes.

ghost use Rattle.std.specs.Prelude.{◌≡◌, [], Some};
ghost use Rattle.std.specs.Io.{WritesAtMost};
ghost use Rattle.std.specs.Io.KnownBytes.{WriteAppends};
ghost use Rattle.lab_io.specs.Fault.{count_after, write_failed};

use lab_io::{Failed, Sink};
use std::alloc::Global;
use std::marker::Model;

/// A writer to a growing byte vector (a sink): it takes all that it is offered and keeps it in the
/// order in which it came. A write fails where no memory is left for it.
#[derive(Debug, Drop)]
pub struct GrowingSink {
    taken: Vec<u8>,
    faults: u64,
}

impl Model for GrowingSink {
    ghost use Rattle.call_edge.specs.Sink.{Kept};

    ghost Value = { Kept };

    ghost view = { λ s. record { taken = s.taken.items; faults = s.faults } };
}

impl GrowingSink {
    /// A sink that has taken nothing. Takes no memory.
    pub fn new(alloc: Global) -> GrowingSink
        ensures { result ≡ record { taken = []; faults = 0 } }
    {
        GrowingSink {
            taken: Vec::new(alloc),
            faults: 0,
        }
    }

    /// The octets that it took.
    pub fn written(&self) -> &[u8]
        ensures { result.now ≡ self.now.taken }
    {
        self.taken.as_slice()
    }
}

impl Sink for GrowingSink {
    ghost written = { λ s. Some s.taken };

    ghost faults = { λ s. s.faults };

    fn write(&mut self, buf: &[u8]) -> Result<usize, Failed> {
        match self.taken.extend_from_slice(buf) {
            Ok(()) => Ok(buf.len()),
            Err(_) => {
                self.faults = self.faults.saturating_add(1);
                Err(Failed)
            }
        }
    }
}
