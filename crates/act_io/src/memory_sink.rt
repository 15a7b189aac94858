//! A sink in memory, some calls of which fail.

ghost use Rattle.std.specs.Prelude.{◌≡◌, ◌↔◌, ◌<◌, ◌≤◌, ◌-◌, ◌++◌, ◌⊎◌, [], length, take, min, Some, IsErr, IfOk, OnErr, Contains};
ghost use Rattle.std.specs.Io.KnownBytes.{WriteAppends};
ghost use Rattle.act_io.specs.Causes.{HasCause, counted};

use crate::{Failed, Sink};
use act_grid::NoMemory;
use std::alloc::Global;
use std::marker::Model;

/// A sink that keeps what it takes, up to its room, for tests of faults. Contracts see the bytes that
/// it took, its room, the numbers of the calls that fail, and how many calls were made and have failed.
#[derive(Drop)]
pub struct MemSink {
    bytes: Vec<u8>,
    room: usize,
    piece: usize,
    fails: Vec<u64>,
    calls: u64,
    faults: u64,
}

impl Model for MemSink {
    ghost use Rattle.std.specs.Prelude.{◌≤◌, ◌<◌, length, vec_capacity};
    ghost use Rattle.act_io.specs.Memory.{Taken};

    ghost Value = { Taken };

    ghost view = { λ s. record { bytes = s.bytes.items; room = s.room; piece = s.piece; fails = s.fails.items; calls = s.calls; faults = s.faults } };

    ghost invariant = { λ s. (length s.bytes.items ≤ s.room) × (s.room ≤ vec_capacity s.bytes) × (0 < s.piece) };
}

impl MemSink {
    /// An empty sink with room for so many bytes, which it takes at once. A write takes at most `piece`
    /// bytes; the calls numbered in `fails`, from 1, fail, and so does a call with no room left. The
    /// count of the calls stands at 2^64-1 once it is there.
    pub fn new(alloc: Global, room: usize, piece: usize, fails: &[u64]) -> Result<MemSink, NoMemory>
        requires { 0 < piece }
        ensures { IfOk result (λ s. s ≡ record { bytes = []; room = room; piece = piece; fails = fails.now; calls = 0; faults = 0 }) }
    {
        Ok(MemSink {
            bytes: Vec::with_capacity(alloc, room)?,
            room,
            piece,
            fails: fails.to_vec(alloc)?,
            calls: 0,
            faults: 0,
        })
    }

    /// What it took.
    pub fn bytes(&self) -> &[u8]
        ensures { result.now ≡ self.now.bytes }
    {
        self.bytes.as_slice()
    }

    /// Counts a fault, and answers it.
    fn fail(&mut self) -> Result<usize, Failed>
        ensures failed { IsErr result }
        ensures fault { self.new ≡ record self.old { faults = counted self.old.faults } }
    {
        self.faults = self.faults.saturating_add(1);
        Err(Failed)
    }
}

impl Sink for MemSink {
    ghost use Rattle.std.specs.Prelude.{Some};

    ghost written = { λ s. Some s.bytes };

    ghost faults = { λ s. s.faults };

    fn write(&mut self, piece: &[u8]) -> Result<usize, Failed>
        requires { 0 < length piece.now }
        ensures taken { IfOk result (λ n. (1 ≤ n) × (n ≤ length piece.now)) }
        ensures bytes { WriteAppends (Some self.old.bytes) (Some self.new.bytes) result piece.now }
        ensures cause { HasCause self.old.faults self.new.faults result }

        // It fails exactly at the calls of the given numbers, and with no room left.
        ensures due { IsErr result ↔ (Contains self.old.fails (counted self.old.calls) ⊎ (self.old.room ≤ length self.old.bytes)) }
        ensures failed { OnErr result (self.new ≡ record self.old { calls = counted self.old.calls; faults = counted self.old.faults }) }

        // Else it takes as much as it may.
        ensures count { IfOk result (λ n. n ≡ min (min (length piece.now) self.old.piece) (self.old.room - length self.old.bytes)) }
        ensures kept { IfOk result (λ n. self.new ≡ record self.old { bytes = self.old.bytes ++ take n piece.now; calls = counted self.old.calls }) }
    {
        self.calls = self.calls.saturating_add(1);
        let room = self.room - self.bytes.len();
        if room == 0 || self.fails.contains(&self.calls) {
            return self.fail();
        }
        let n = piece.len().min(self.piece).min(room);
        match self.bytes.extend_from_slice(&piece[..n]) {
            Ok(()) => Ok(n),
            Err(_) => self.fail(),
        }
    }
}
