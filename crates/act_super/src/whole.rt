//! Rows and references of a part of the super covering, from its zones alone.

ghost use Rattle.std.specs.Prelude.{◌≡◌, ◌+◌, ◌*◌, ◌^◌, ◌<◌, ◌≤◌, IfOk, length};
ghost use Rattle.act_grid.specs.Cell.{IsCell};
ghost use Rattle.act_super.specs.Grounds.{is_split, on};
ghost use Rattle.act_super.specs.Packs.{inner, put_tree};
ghost use Rattle.act_super.specs.Parts.{four_parts, inner_four, most_four, part, put_four};
ghost use Rattle.act_super.specs.Standings.{standing_ground, values};
ghost use Rattle.act_super.specs.Trees.{most, under};

use crate::marks::Marks;
use crate::narrow::part_on;
use crate::pack::Pack;
use crate::standing::Standing;
use act_grid::Cell;
use std::alloc::{AllocError, Global};

/// The rows of the nodes below, and the greatest number of references of a leaf.
#[derive(Clone, Copy, Debug, PartialEq, Eq)]
pub(crate) struct Found {
    pub rows: u64,
    pub most: u64,
}

/// Puts the lists of the leaves within k levels of the cell, and tells the rows of the nodes that stand k levels
/// below and of all under them. The zones are those on the cell, and `split` says whether it is split.
#[cycle(whole)]
pub(crate) fn whole(
    alloc: Global,
    marks: &Marks,
    k: u8,
    zones: &[&Standing],
    split: bool,
    cell: Cell,
    pack: &mut Pack,
) -> Result<Found, AllocError>
    requires level { cell.level ≤ 28 }
    requires cell { IsCell cell }
    requires few { length zones.now ≤ 2 ^ 32 }
    requires on { on (standing_ground marks.now) (values zones.now) cell ≡ values zones.now }
    requires split { split ≡ is_split (standing_ground marks.now) (values zones.now) cell }
    requires deep { k ≤ 4 }
    requires rows { pack.old.rows + 4 ^ k ≤ 2 ^ 32 }
    requires at { pack.old.at ≤ 2 ^ 32 }
    ensures put { IfOk result (λ found. pack.new ≡ put_tree k pack.old (under (standing_ground marks.now) (values zones.now) cell)) }
    ensures at { IfOk result (λ found. pack.new.at ≤ 2 ^ 32) }
    ensures rows { IfOk result (λ found. found.rows ≡ inner k (under (standing_ground marks.now) (values zones.now) cell)) }
    ensures most { IfOk result (λ found. found.most ≡ most (under (standing_ground marks.now) (values zones.now) cell)) }
{
    if !split {
        pack.put_leaf(zones.len());
        return Ok(Found {
            rows: 0,
            most: zones.len() as u64,
        });
    }
    if k == 0 {
        let mut fresh = Pack::empty();
        let found = whole_four(alloc, marks, 3, zones, cell, &mut fresh)?;
        return Ok(Found {
            rows: 1 + fresh.rows + found.rows,
            most: found.most,
        });
    }
    let found = whole_four(alloc, marks, k - 1, zones, cell, pack)?;
    Ok(found)
}

#[cycle(whole)]
fn whole_four(
    alloc: Global,
    marks: &Marks,
    k: u8,
    zones: &[&Standing],
    cell: Cell,
    pack: &mut Pack,
) -> Result<Found, AllocError>
    requires level { cell.level < 28 }
    requires cell { IsCell cell }
    requires few { length zones.now ≤ 2 ^ 32 }
    requires deep { k ≤ 4 }
    requires rows { pack.old.rows + 4 * 4 ^ k ≤ 2 ^ 32 }
    requires at { pack.old.at ≤ 2 ^ 32 }
    ensures put { IfOk result (λ found. pack.new ≡ put_four k pack.old (four_parts (standing_ground marks.now) (values zones.now) cell)) }
    ensures at { IfOk result (λ found. pack.new.at ≤ 2 ^ 32) }
    ensures rows { IfOk result (λ found. found.rows ≡ inner_four k (four_parts (standing_ground marks.now) (values zones.now) cell)) }
    ensures most { IfOk result (λ found. found.most ≡ most_four (four_parts (standing_ground marks.now) (values zones.now) cell)) }
{
    let a = whole_below(alloc, marks, k, zones, cell, 0, pack)?;
    let b = whole_below(alloc, marks, k, zones, cell, 1, pack)?;
    let c = whole_below(alloc, marks, k, zones, cell, 2, pack)?;
    let d = whole_below(alloc, marks, k, zones, cell, 3, pack)?;
    Ok(Found {
        rows: a.rows + b.rows + c.rows + d.rows,
        most: a.most.max(b.most).max(c.most.max(d.most)),
    })
}

#[cycle(whole)]
fn whole_below(
    alloc: Global,
    marks: &Marks,
    k: u8,
    zones: &[&Standing],
    cell: Cell,
    q: u8,
    pack: &mut Pack,
) -> Result<Found, AllocError>
    requires level { cell.level < 28 }
    requires cell { IsCell cell }
    requires few { length zones.now ≤ 2 ^ 32 }
    requires quarter { q < 4 }
    requires deep { k ≤ 4 }
    requires rows { pack.old.rows + 4 ^ k ≤ 2 ^ 32 }
    requires at { pack.old.at ≤ 2 ^ 32 }
    ensures put { IfOk result (λ found. pack.new ≡ put_tree k pack.old (part (standing_ground marks.now) (values zones.now) cell q)) }
    ensures at { IfOk result (λ found. pack.new.at ≤ 2 ^ 32) }
    ensures rows { IfOk result (λ found. found.rows ≡ inner k (part (standing_ground marks.now) (values zones.now) cell q)) }
    ensures most { IfOk result (λ found. found.most ≡ most (part (standing_ground marks.now) (values zones.now) cell q)) }
    ensures fits { IfOk result (λ found. found.rows < 2 ^ 57) }
{
    let below = cell.child(q);
    let there = part_on(alloc, zones, marks, below)?;
    let found = whole(
        alloc,
        marks,
        k,
        there.zones.as_slice(),
        there.split,
        below,
        pack,
    )?;
    Ok(found)
}
