//! A sink over a writer of std.

ghost use Rattle.std.specs.Prelude.{◌≡◌, ◌<◌, ◌≤◌, length, is_ok, if◌then◌else◌, IfOk};
ghost use Rattle.std.specs.Io.KnownBytes.{WriteAppends};
ghost use Rattle.act_io.specs.Causes.{HasCause, counted};

use crate::{Failed, Sink};
use std::io::Write;
use std::marker::Model;

/// A sink over a writer. Each error of the writer is a fault, and so is a write that takes no byte.
#[derive(Drop)]
pub struct StdSink<W> {
    writer: W,
    faults: u64,
}

impl<W> Model for StdSink<W> {
    ghost use Rattle.std.specs.Prelude.{ℕ};
    ghost use Rattle.act_io.specs.Standard.{Counted};

    ghost Value = { Counted W };

    ghost view = { λ s. record { device = s.writer; faults = s.faults } };
}

impl<W: Write> StdSink<W> {
    /// A sink over the writer, which has not failed yet.
    pub fn new(writer: W) -> StdSink<W>
        ensures { result ≡ record { device = writer; faults = 0 } }
    {
        StdSink { writer, faults: 0 }
    }
}

impl<W: Write> Sink for StdSink<W> {
    ghost written = { λ s. W.contents s.device };

    ghost faults = { λ s. s.faults };

    fn write(&mut self, piece: &[u8]) -> Result<usize, Failed>
        requires { 0 < length piece.now }
        ensures taken { IfOk result (λ n. (1 ≤ n) × (n ≤ length piece.now)) }
        ensures bytes { WriteAppends (W.contents self.old.device) (W.contents self.new.device) result piece.now }
        ensures cause { HasCause self.old.faults self.new.faults result }
        ensures counts { self.new.faults ≡ (if is_ok result then self.old.faults else counted self.old.faults) }
    {
        match self.writer.write(piece) {
            Ok(count) if count > 0 => Ok(count),
            _ => {
                self.faults = self.faults.saturating_add(1);
                Err(Failed)
            }
        }
    }
}
