//! The pool of rows.
ghost use Rattle.std.specs.Prelude.{◌≡◌, ℕ, ◌+◌, ◌-◌, ◌<◌, ◌≤◌, [], ◌∷◌, ◌++◌, length, take, drop, vec_capacity, IfOk, IfErr};
ghost use Rattle.std.specs.VecDeque.{deque_len, deque_capacity};
ghost use Rattle.act_pool.specs.Pooled.{Pooled, IsTidy, IsUsed, first_free};
ghost use Rattle.act_pool.specs.Retired.{Each, IsInOrder, placed, later, freed};

use act_grid::NoMemory;
use std::alloc::Global;
use std::collections::VecDeque;
use std::marker::Model;

/// Fewer rows are free than were asked for.
#[derive(Clone, Copy, Debug, PartialEq, Eq)]
pub struct Short {
    /// How many are free.
    pub free: u32,
}

/// The rows from 1 to a number, each of which is free, retired or in use. It takes all its memory
/// when it is made, 20 bytes a row.
#[derive(Drop)]
pub struct Pool {
    rows: u32,
    // The last one is taken first.
    free: Vec<u32>,
    // Each with its version, in order of versions.
    retired: VecDeque<(u32, u64)>,
}

impl Model for Pool {
    ghost Value = { Pooled };

    ghost view = { λ p. record { rows = p.rows; free = p.free.items; retired = p.retired.items } };

    ghost invariant = { λ p. record {
      room : (p.rows ≤ vec_capacity p.free) × (p.rows ≤ deque_capacity p.retired);
      few : p.rows ≤ 524288;
      tidy : IsTidy (record { rows = p.rows; free = p.free.items; retired = p.retired.items });
    } };
}

// Where a row that waits for this version stands: behind those that wait for no later one.
fn place_of(retired: &VecDeque<(u32, u64)>, version: u64) -> usize
    requires { IsInOrder retired.now.items }
    ensures within { result ≤ deque_len retired.now }
    ensures before { Each (λ _ w. w ≤ version) (take result retired.now.items) }
    ensures behind { Each (λ _ w. version < w) (drop result retired.now.items) }
{
    let mut at = retired.len();
    while at > 0 {
        if retired[at - 1].1 <= version {
            return at;
        }
        at -= 1;
    }
    0
}

impl Pool {
    /// Row 1 is in use, and the others are free.
    pub fn new(alloc: Global, rows: u32) -> Result<Pool, NoMemory>
        requires { (2 ≤ rows) × (rows ≤ 524288) }
        ensures { IfOk result (λ p. p ≡ record { rows = rows; free = first_free rows; retired = [] }) }
    {
        let mut free = Vec::with_capacity(alloc, rows as usize)?;
        for at in 0..rows - 1 {
            free.push_reserved(at + 2);
        }
        let retired = VecDeque::with_capacity(alloc, rows as usize)?;
        Ok(Pool {
            rows,
            free,
            retired,
        })
    }

    /// How many rows are free.
    pub fn free(&self) -> u32
        ensures free { result ≡ length self.now.free }
        ensures tidy { IsTidy self.now }
    {
        self.free.len() as u32
    }

    /// Fills `out` with free rows, which are then in use. It costs constant time a row.
    pub fn take(&mut self, out: &mut [u32]) -> Result<(), Short>
        ensures ok { IfOk result (λ _. (self.old.free ≡ self.new.free ++ out.new) × (self.new.retired ≡ self.old.retired)) }
        ensures err { IfErr result (λ short. (short.free ≡ length self.old.free) × (length self.old.free < length out.old) × (self.new ≡ self.old) × (out.new ≡ out.old)) }
        ensures tidy { IsTidy self.old }
        ensures rows { self.new.rows ≡ self.old.rows }
    {
        if out.len() > self.free.len() {
            return Err(Short {
                free: self.free.len() as u32,
            });
        }
        let from = self.free.len() - out.len();
        out.copy_from_slice(&self.free[from..]);
        self.free.truncate(from);
        Ok(())
    }

    /// A row in use leaves use and waits for this version. It costs constant time where no retired
    /// row waits for a later one, else time for each that does.
    pub fn retire(&mut self, row: u32, version: u64)
        requires { IsUsed self.old row }
        ensures { self.new ≡ record self.old { retired = placed row version self.old.retired } }
    {
        let at = place_of(&self.retired, version);
        let Ok(()) = self.retired.insert(at, (row, version)) else {
            unreachable!()
        };
    }

    /// The retired rows whose version is at most the bound become free. It costs constant time for
    /// each of them.
    pub fn reclaim(&mut self, bound: u64)
        ensures { self.new ≡ record self.old { free = self.old.free ++ freed bound self.old.retired; retired = later bound self.old.retired } }
    {
        while let Some(&(row, version)) = self.retired.front() {
            if version > bound {
                break;
            }
            self.retired.pop_front();
            self.free.push_reserved(row);
        }
    }
}
