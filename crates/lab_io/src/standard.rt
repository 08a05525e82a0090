//! Standard input and output. No contract can say what they give or take, so they tell no content.

ghost use Rattle.std.specs.Prelude.{◌≡◌, false, None};

use crate::edge::{Failed, Sink, Source};
use std::io::{Read, Stdin, Stdout, Write};
use std::marker::Model;

/// A reader of standard input (a source), seen as its count of failed reads.
#[derive(Drop)]
pub struct StdSource {
    stdin: Stdin,
    faults: u64,
}

impl Model for StdSource {
    ghost use Rattle.std.specs.Prelude.{ℕ};

    ghost Value = { ℕ };

    ghost view = { λ s. s.faults };
}

impl StdSource {
    /// Reads from `stdin`.
    pub fn new(stdin: Stdin) -> StdSource
        ensures { result ≡ 0 }
    {
        StdSource { stdin, faults: 0 }
    }
}

impl Source for StdSource {
    ghost left = { λ _. None };

    ghost faults = { λ count. count };

    ghost said_end = { λ _. false };

    ghost late_reads = { λ _. 0 };

    fn read(&mut self, buf: &mut [u8]) -> Result<usize, Failed> {
        match self.stdin.read(buf) {
            Ok(count) => Ok(count),
            Err(_) => {
                self.faults = self.faults.saturating_add(1);
                Err(Failed)
            }
        }
    }
}

/// A writer to standard output (a sink), seen as its count of failed writes.
#[derive(Drop)]
pub struct StdSink {
    stdout: Stdout,
    faults: u64,
}

impl Model for StdSink {
    ghost use Rattle.std.specs.Prelude.{ℕ};

    ghost Value = { ℕ };

    ghost view = { λ s. s.faults };
}

impl Sink for StdSink {
    ghost written = { λ _. None };

    ghost faults = { λ count. count };

    fn write(&mut self, buf: &[u8]) -> Result<usize, Failed> {
        match self.stdout.write(buf) {
            Ok(0) if !buf.is_empty() => {
                self.faults = self.faults.saturating_add(1);
                Ok(0)
            }
            Ok(count) => Ok(count),
            Err(_) => {
                self.faults = self.faults.saturating_add(1);
                Err(Failed)
            }
        }
    }
}

impl StdSink {
    /// Writes to `stdout`.
    pub fn new(stdout: Stdout) -> StdSink
        ensures { result ≡ 0 }
    {
        StdSink { stdout, faults: 0 }
    }
}
