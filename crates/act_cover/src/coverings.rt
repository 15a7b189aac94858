//! Levels and coverings.

ghost use Rattle.std.specs.Prelude.{◌≡◌, ◌≤◌, IfOk};
ghost use Rattle.std.specs.List.{filter};
ghost use Rattle.act_cover.specs.Covering.{is_within};
ghost use Rattle.act_cover.specs.declared.held.Held.{Held};
ghost use Rattle.act_cover.specs.Level.{level_of, covering_of, interior_of};
ghost use Rattle.act_cover.specs.Held.{IsReached, cells_of};

use crate::cells::Cells;
use crate::classes::Classes;
use crate::frontier::Frontier;
use crate::held::Held;
use crate::refine::{put_all, put_root};
use act_geom::Class;
use act_grid::{Cell, NoMemory};
use std::alloc::{AllocError, Global};

/// The deepest level of a covering.
const DEEPEST: u32 = 28;

/// The cells of a level, and the level.
#[derive(Drop)]
struct Reached {
    level: u32,
    cells: Frontier,
}

/// The greatest level up to 28 such that each level from 0 to it has at most so many cells.
///
/// It takes no memory, and some 50 KB of stack. At each level it asks for the class of the four children of
/// each Mixed cell, until the cells exceed the budget: one question a cell.
pub fn cover_level<S: Classes>(shape: &S, cells: u32) -> u32
    requires least { 1 ≤ cells }
    requires most { cells ≤ 1024 }
    ensures { result ≡ level_of (S.rings shape.now) cells }
{
    reach(shape, cells as usize).level
}

/// The covering of the shape by so many cells at most: the cells of the level that `cover_level` tells, by
/// ascending ids. It costs what `cover_level` does.
pub fn covering<S: Classes>(alloc: Global, shape: &S, cells: u32) -> Result<Cells, NoMemory>
    requires least { 1 ≤ cells }
    requires most { cells ≤ 1024 }
    ensures { IfOk result (λ covering. covering ≡ covering_of (S.rings shape.now) cells) }
{
    let reached = reach(shape, cells as usize);
    let items = all_cells(alloc, reached.cells.as_slice())?;
    Ok(Cells::from_vec(items))
}

/// The cells of the covering that are Inside, by ascending ids. It costs what `cover_level` does.
pub fn interior<S: Classes>(alloc: Global, shape: &S, cells: u32) -> Result<Cells, NoMemory>
    requires least { 1 ≤ cells }
    requires most { cells ≤ 1024 }
    ensures { IfOk result (λ interior. interior ≡ interior_of (S.rings shape.now) cells) }
{
    let reached = reach(shape, cells as usize);
    let items = inside_cells(alloc, reached.cells.as_slice())?;
    Ok(Cells::from_vec(items))
}

// Goes down level by level while the cells fit the budget.
fn reach<S: Classes>(shape: &S, most: usize) -> Reached
    requires least { 1 ≤ most }
    requires most { most ≤ 1024 }
    ensures level { result.level ≡ level_of (S.rings shape.now) most }
    ensures cells { IsReached (S.rings shape.now) result.level result.cells }
{
    let mut cells = Frontier::new();
    put_root(shape, &mut cells);
    for level in 0..DEEPEST {
        let mut next = Frontier::new();
        if !put_all(shape, cells.as_slice(), most, &mut next) {
            return Reached { level, cells };
        }
        cells = next;
    }
    Reached {
        level: DEEPEST,
        cells,
    }
}

// The cells that are held.
fn all_cells(alloc: Global, held: &[Held]) -> Result<Vec<Cell>, AllocError>
    ensures { IfOk result (λ v. v.items ≡ cells_of held.now) }
{
    held.iter().map(|h| h.cell).collect(alloc)
}

// The Inside cells that are held.
fn inside_cells(alloc: Global, held: &[Held]) -> Result<Vec<Cell>, AllocError>
    ensures { IfOk result (λ v. v.items ≡ cells_of (filter (λ (h : Held). is_within h.class) held.now)) }
{
    held.iter()
        .filter(|h| h.class == Class::Inside)
        .map(|h| h.cell)
        .collect(alloc)
}
