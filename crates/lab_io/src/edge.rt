//! Sources and sinks of octets. Each counts its faults: a call that fails raises the count by one, up
//! to the greatest number of 64 bits, and any other call keeps it. So who uses one can't claim a fault
//! that it didn't meet, nor hide one that it met.

/// An I/O error: a read or a write failed.
#[derive(Clone, Copy, Debug, PartialEq, Eq)]
pub struct Failed;

/// A reader of octets (a source), with a count of its failed reads.
pub trait Source {
    ghost use Rattle.std.specs.Prelude.{◌≡◌, ◌<◌, ◌⊎◌, ℕ, Bool, List, Ok, Option, length, true, is_err};
    ghost use Rattle.std.specs.Io.{ReadsAtMost};
    ghost use Rattle.std.specs.Io.KnownBytes.{ReadConsumes};
    ghost use Rattle.lab_io.specs.Fault.{count_after};

    // The octets that are left, where the source tells them.
    ghost left: { Self → Option (List ℕ) };

    // How often it failed.
    ghost faults: { Self → ℕ };

    // Whether it said its end, and how often it was read after that, of a source that keeps count.
    ghost said_end: { Self → Bool };

    ghost late_reads: { Self → ℕ };

    /// Puts the next octets at the front of `buf`, which isn't empty, and answers how many; 0 is the
    /// end.
    fn read(&mut self, buf: &mut [u8]) -> Result<usize, Failed>
        requires { 0 < length buf.old }
        ensures bound { ReadsAtMost result buf.new }
        ensures octets { ReadConsumes (left self.old) (left self.new) result buf.new }
        ensures faults { faults self.new ≡ count_after (is_err result) (faults self.old) }
        ensures end { said_end self.new ≡ true → (said_end self.old ≡ true) ⊎ (result ≡ Ok 0) }
        ensures late { late_reads self.new ≡ count_after (said_end self.old) (late_reads self.old) };
}

/// A writer of octets (a sink), with a count of its failed writes.
pub trait Sink {
    ghost use Rattle.std.specs.Prelude.{◌≡◌, ℕ, List, Option};
    ghost use Rattle.std.specs.Io.{WritesAtMost};
    ghost use Rattle.std.specs.Io.KnownBytes.{WriteAppends};
    ghost use Rattle.lab_io.specs.Fault.{count_after, write_failed};

    // The octets that it took, where the sink tells them.
    ghost written: { Self → Option (List ℕ) };

    // How often it failed.
    ghost faults: { Self → ℕ };

    /// Takes octets from the front of `buf` and answers how many. To take none of a buffer that
    /// isn't empty is to fail.
    fn write(&mut self, buf: &[u8]) -> Result<usize, Failed>
        ensures bound { WritesAtMost result buf.now }
        ensures octets { WriteAppends (written self.old) (written self.new) result buf.now }
        ensures faults { faults self.new ≡ count_after (write_failed result buf.now) (faults self.old) };
}
