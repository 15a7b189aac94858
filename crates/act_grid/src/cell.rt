//! Cells: the squares that come from the domain by quartering it again and again.
//!
//! The domain is the square of side 2^32 whose low corner is (-2^31, -2^31). A cell of level 0 to 30
//! has side 2^(32-level). Its children 0 to 3 are its quarters low-x low-y, high-x low-y, low-x high-y
//! and high-x high-y. A cell of level 30 holds 16 grid points.

ghost use Rattle.std.specs.Prelude.{◌≡◌, ◌+ℤ◌, pos, ◌^◌};

use crate::hull::{Hull, is_in};
use crate::interleave::{gather, interleave};
use crate::point::Point;
use crate::slot::Slot;
use std::marker::Model;

/// A cell of the domain, held in two words.
///
/// Its id orders cells that don't overlap along the Z curve.
#[derive(Clone, Copy, Debug, PartialEq, Eq)]
pub struct Cell {
    level: u32,
    path: u64,
}

// Clauses see the level and the path.
impl Model for Cell {
    ghost use Rattle.act_grid.specs.Cell.{Address, IsCell};

    ghost Value = { Address };

    ghost view = { λ cell. record { level = cell.level; path = cell.path } };

    ghost invariant = { λ cell. IsCell (record { level = cell.level; path = cell.path }) };

    ghost inverse = { λ c. record { level = c.level; path = c.path } };
}

impl Cell {
    ghost use Rattle.std.specs.Prelude.{◌≡◌, ◌≢◌, ◌+◌, ◌%◌, ◌<◌, ◌≤◌, ◌↔◌, IsTrue, IfSome, IfNone};
    ghost use Rattle.act_grid.specs.Hull.{IsIn};
    ghost use Rattle.act_grid.specs.Cell.{Address, IsCell, root_cell, child_of, parent_of, id_of, hull_of, first_entry, entries_filled};

    /// The whole domain.
    pub fn root() -> Cell
        ensures { result ≡ root_cell }
    {
        Cell { level: 0, path: 0 }
    }

    /// The cell of level 30 that holds the point. It takes some thirty operations on words.
    #[inline]
    pub fn leaf(p: Point) -> Cell
        ensures level { result.level ≡ 30 }
        ensures holds { IsIn (hull_of result) p }
        ensures cell { IsCell result }
    {
        Cell {
            level: 30,
            path: interleave(offset(p.x), offset(p.y)) >> 4,
        }
    }

    /// The cell with this id. `None` comes exactly where no cell has it.
    pub fn from_id(id: u64) -> Option<Cell>
        ensures some { IfSome result (λ cell. id_of cell ≡ id) }
        ensures none { IfNone result ((c : Address) → IsCell c → id_of c ≢ id) }
    {
        if id == 0 || id >= 1 << 61 {
            return None;
        }
        let zeros = id.trailing_zeros();
        if zeros % 2 == 1 {
            return None;
        }
        Some(Cell {
            level: (60 - zeros) / 2,
            path: id >> (zeros + 1),
        })
    }

    /// How often the domain was quartered, 0 to 30.
    pub fn level(&self) -> u32
        ensures value { result ≡ self.now.level }
        ensures cell { IsCell self.now }
    {
        self.level
    }

    /// The number of the cell, below 2^61: its path, a bit 1, and then bits 0.
    pub fn id(&self) -> u64
        ensures { result ≡ id_of self.now }
    {
        (self.path << (61 - 2 * self.level)) + (1 << (60 - 2 * self.level))
    }

    /// The grid points of the cell.
    pub fn hull(&self) -> Hull
        ensures { result ≡ hull_of self.now }
    {
        let z = (self.path << (60 - 2 * self.level)) << 4;
        let west = gather(z);
        let south = gather(z >> 1);
        let reach = u32::MAX >> self.level;
        let lo = Point {
            x: coordinate(west),
            y: coordinate(south),
        };
        let hi = Point {
            x: coordinate(west + reach),
            y: coordinate(south + reach),
        };
        Hull { lo, hi }
    }

    /// Whether the point is a grid point of the cell.
    pub fn contains(&self, p: Point) -> bool
        ensures { IsTrue result ↔ IsIn (hull_of self.now) p }
    {
        is_in(self.hull(), p)
    }

    /// A quarter of the cell.
    pub fn child(&self, q: u8) -> Cell
        requires level { self.now.level < 30 }
        requires quarter { q < 4 }
        ensures { result ≡ child_of self.now q }
    {
        Cell {
            level: self.level + 1,
            path: self.path * 4 + u64::from(q),
        }
    }

    /// The cell of which this one is a quarter.
    pub fn parent(&self) -> Cell
        requires { 0 < self.now.level }
        ensures { result ≡ parent_of self.now }
    {
        Cell {
            level: self.level - 1,
            path: self.path / 4,
        }
    }

    /// The entries of a node that the cell fills. A node has an entry for each cell four levels below
    /// its own, in Z order.
    pub fn slot(&self, node_level: u32) -> Slot
        requires step { node_level % 4 ≡ 0 }
        requires deep { node_level ≤ 24 }
        requires above { node_level ≤ self.now.level }
        requires near { self.now.level ≤ node_level + 4 }
        ensures first { result.first ≡ first_entry self.now node_level }
        ensures count { result.count ≡ entries_filled self.now node_level }
        ensures within { result.first + result.count ≤ 256 }
    {
        let below = 2 * (self.level - node_level);
        let count = 256u64 >> below;
        let first = (self.path & ((1 << below) - 1)) * count;
        Slot {
            first: first as u8,
            count: count as u16,
        }
    }
}

// How far a coordinate is from the domain's low side.
#[inline]
fn offset(z: i32) -> u32
    ensures { pos result ≡ z +ℤ pos (2 ^ 31) }
{
    (i64::from(z) + 0x8000_0000) as u32
}

// The coordinate that is so far from the domain's low side.
#[inline]
fn coordinate(n: u32) -> i32
    ensures { result +ℤ pos (2 ^ 31) ≡ pos n }
{
    (i64::from(n) - 0x8000_0000) as i32
}
