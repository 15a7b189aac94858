//! A sink that never fails.

ghost use Rattle.std.specs.Prelude.{◌≡◌, ◌<◌, ◌≤◌, ◌+◌, ◌-◌, ◌^◌, length, min, Ok, None, IfOk};
ghost use Rattle.std.specs.Io.KnownBytes.{WriteAppends};
ghost use Rattle.act_io.specs.Causes.{HasCause};

use crate::{Failed, Sink};
use std::marker::Model;

/// A sink that takes all, keeps only the number of bytes, and tells nothing of what was written.
/// Contracts see that number.
#[derive(Drop)]
pub struct SureSink {
    count: u64,
}

impl Model for SureSink {
    ghost use Rattle.std.specs.Prelude.{ℕ};

    ghost Value = { ℕ };

    ghost view = { λ s. s.count };
}

impl SureSink {
    /// A sink that has taken nothing yet.
    pub fn new() -> SureSink
        ensures { result ≡ 0 }
    {
        SureSink { count: 0 }
    }

    /// How many bytes it took. The number stands at 2^64-1 once it is there.
    pub fn count(&self) -> u64
        ensures { result ≡ self.now }
    {
        self.count
    }
}

impl Sink for SureSink {
    ghost use Rattle.std.specs.Prelude.{None};

    ghost written = { λ s. None };

    ghost faults = { λ s. 0 };

    fn write(&mut self, piece: &[u8]) -> Result<usize, Failed>
        requires { 0 < length piece.now }
        ensures taken { IfOk result (λ n. (1 ≤ n) × (n ≤ length piece.now)) }
        ensures bytes { WriteAppends None None result piece.now }
        ensures cause { HasCause 0 0 result }

        ensures all { result ≡ Ok (length piece.now) }
        ensures count { self.new ≡ min (self.old + length piece.now) (2 ^ 64 - 1) }
    {
        self.count = self.count.saturating_add(piece.len() as u64);
        Ok(piece.len())
    }
}
