//! How many rows may fall away where trained cells are split.

ghost use Rattle.std.specs.Prelude.{◌≡◌, ◌+◌, ◌^◌, ◌<◌, ◌≤◌, IfOk};
ghost use Rattle.act_grid.specs.Cell.{IsCell, root_cell};
ghost use Rattle.act_super.specs.Grounds.{is_among, is_split, on};
ghost use Rattle.act_super.specs.Losses.{loss, loss_at, losses, part_losses};
ghost use Rattle.act_super.specs.Standings.{standing_ground, values};

use crate::marks::Marks;
use crate::narrow::part_on;
use crate::standing::Standing;
use act_grid::Cell;
use std::alloc::{AllocError, Global};

/// From how many references on a leaf has a list.
const LISTED: usize = 3;

/// From how many references on a list takes more than half a row.
const LONG: usize = 255;

/// How many rows may fall away at most on the way from these old cells to the trained ones: one more split takes a leaf
/// away, and with it its list. It looks at the cells with three zones or more.
pub(crate) fn rows_lost(
    alloc: Global,
    zones: &[&Standing],
    old: &Marks,
    marks: &Marks,
) -> Result<u64, AllocError>
    ensures is { IfOk result (λ rows. rows ≡ losses (standing_ground marks.now) (is_among old.now) (values zones.now) root_cell) }
    ensures fits { IfOk result (λ rows. rows < 2 ^ 56) }
{
    let root = Cell::root();
    let top = part_on(alloc, zones, marks, root)?;
    let rows = lost(alloc, old, marks, top.zones.as_slice(), top.split, root)?;
    Ok(rows)
}

/// The same from a cell down. The zones are those on the cell, and `split` says whether it is split.
#[cycle(lost)]
fn lost(
    alloc: Global,
    old: &Marks,
    marks: &Marks,
    zones: &[&Standing],
    split: bool,
    cell: Cell,
) -> Result<u64, AllocError>
    requires level { cell.level ≤ 28 }
    requires cell { IsCell cell }
    requires on { on (standing_ground marks.now) (values zones.now) cell ≡ values zones.now }
    requires split { split ≡ is_split (standing_ground marks.now) (values zones.now) cell }
    ensures { IfOk result (λ rows. rows ≡ losses (standing_ground marks.now) (is_among old.now) (values zones.now) cell) }
{
    if !split {
        return Ok(0);
    }
    if zones.len() < LISTED {
        return Ok(0);
    }
    let here = lost_at(old, marks, zones.len(), cell);
    let below = lost_four(alloc, old, marks, zones, cell)?;
    Ok(here + below)
}

#[cycle(lost)]
fn lost_four(
    alloc: Global,
    old: &Marks,
    marks: &Marks,
    zones: &[&Standing],
    cell: Cell,
) -> Result<u64, AllocError>
    requires level { cell.level < 28 }
    requires cell { IsCell cell }
    ensures is { let g = standing_ground marks.now in IfOk result (λ rows. rows ≡ part_losses g (is_among old.now) (values zones.now) cell 0 + part_losses g (is_among old.now) (values zones.now) cell 1 + part_losses g (is_among old.now) (values zones.now) cell 2 + part_losses g (is_among old.now) (values zones.now) cell 3) }
    ensures fits { IfOk result (λ rows. rows < 2 ^ 58) }
{
    let a = lost_below(alloc, old, marks, zones, cell, 0)?;
    let b = lost_below(alloc, old, marks, zones, cell, 1)?;
    let c = lost_below(alloc, old, marks, zones, cell, 2)?;
    let d = lost_below(alloc, old, marks, zones, cell, 3)?;
    Ok(a + b + c + d)
}

#[cycle(lost)]
fn lost_below(
    alloc: Global,
    old: &Marks,
    marks: &Marks,
    zones: &[&Standing],
    cell: Cell,
    q: u8,
) -> Result<u64, AllocError>
    requires level { cell.level < 28 }
    requires cell { IsCell cell }
    requires quarter { q < 4 }
    ensures is { IfOk result (λ rows. rows ≡ part_losses (standing_ground marks.now) (is_among old.now) (values zones.now) cell q) }
    ensures fits { IfOk result (λ rows. rows < 2 ^ 56) }
{
    let below = cell.child(q);
    let there = part_on(alloc, zones, marks, below)?;
    let rows = lost(
        alloc,
        old,
        marks,
        there.zones.as_slice(),
        there.split,
        below,
    )?;
    Ok(rows)
}

// The rows that the list of a split cell may have taken.
fn lost_at(old: &Marks, marks: &Marks, references: usize, cell: Cell) -> u64
    ensures is { result ≡ loss_at (is_among marks.now cell) (is_among old.now cell) references }
    ensures few { result ≤ 2 }
{
    if !marks.has(cell) {
        return 0;
    }
    if old.has(cell) {
        return 0;
    }
    list_rows(references)
}

// The rows by which a list moves those behind it, at most.
fn list_rows(references: usize) -> u64
    ensures { result ≡ loss references }
{
    if references < LISTED {
        return 0;
    }
    if references < LONG {
        return 1;
    }
    2
}
