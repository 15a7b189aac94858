//! The lists of a part that two super coverings share.

ghost use Rattle.std.specs.Prelude.{◌≡◌, ◌+◌, ◌*◌, ◌^◌, ◌<◌, ◌≤◌, IfOk, length};
ghost use Rattle.act_grid.specs.Cell.{IsCell};
ghost use Rattle.act_super.specs.Grounds.{is_split, on};
ghost use Rattle.act_super.specs.Packs.{put_tree};
ghost use Rattle.act_super.specs.Parts.{four_parts, part, put_four};
ghost use Rattle.act_super.specs.Standings.{standing_ground, values};
ghost use Rattle.act_super.specs.Trees.{under};

use crate::marks::Marks;
use crate::narrow::part_on;
use crate::pack::Pack;
use crate::standing::Standing;
use act_grid::Cell;
use std::alloc::{AllocError, Global};

/// Puts the lists of the leaves within k levels of the cell to both packs, and goes no further down. The zones are
/// those on the cell, and `split` says whether it is split.
#[cycle(lists)]
pub(crate) fn lists(
    alloc: Global,
    marks: &Marks,
    k: u8,
    zones: &[&Standing],
    split: bool,
    cell: Cell,
    first: &mut Pack,
    second: &mut Pack,
) -> Result<(), AllocError>
    requires level { cell.level ≤ 28 }
    requires cell { IsCell cell }
    requires few { length zones.now ≤ 2 ^ 32 }
    requires on { on (standing_ground marks.now) (values zones.now) cell ≡ values zones.now }
    requires split { split ≡ is_split (standing_ground marks.now) (values zones.now) cell }
    requires deep { k ≤ 4 }
    requires first_rows { first.old.rows + 4 ^ k ≤ 2 ^ 32 }
    requires first_at { first.old.at ≤ 2 ^ 32 }
    requires second_rows { second.old.rows + 4 ^ k ≤ 2 ^ 32 }
    requires second_at { second.old.at ≤ 2 ^ 32 }
    ensures first { IfOk result (λ done. first.new ≡ put_tree k first.old (under (standing_ground marks.now) (values zones.now) cell)) }
    ensures second { IfOk result (λ done. second.new ≡ put_tree k second.old (under (standing_ground marks.now) (values zones.now) cell)) }
    ensures first_at { IfOk result (λ done. first.new.at ≤ 2 ^ 32) }
    ensures second_at { IfOk result (λ done. second.new.at ≤ 2 ^ 32) }
{
    if !split {
        first.put_leaf(zones.len());
        second.put_leaf(zones.len());
        return Ok(());
    }
    if k == 0 {
        return Ok(());
    }
    lists_four(alloc, marks, k - 1, zones, cell, first, second)?;
    Ok(())
}

#[cycle(lists)]
fn lists_four(
    alloc: Global,
    marks: &Marks,
    k: u8,
    zones: &[&Standing],
    cell: Cell,
    first: &mut Pack,
    second: &mut Pack,
) -> Result<(), AllocError>
    requires level { cell.level < 28 }
    requires cell { IsCell cell }
    requires few { length zones.now ≤ 2 ^ 32 }
    requires deep { k ≤ 4 }
    requires first_rows { first.old.rows + 4 * 4 ^ k ≤ 2 ^ 32 }
    requires first_at { first.old.at ≤ 2 ^ 32 }
    requires second_rows { second.old.rows + 4 * 4 ^ k ≤ 2 ^ 32 }
    requires second_at { second.old.at ≤ 2 ^ 32 }
    ensures first { IfOk result (λ done. first.new ≡ put_four k first.old (four_parts (standing_ground marks.now) (values zones.now) cell)) }
    ensures second { IfOk result (λ done. second.new ≡ put_four k second.old (four_parts (standing_ground marks.now) (values zones.now) cell)) }
    ensures first_at { IfOk result (λ done. first.new.at ≤ 2 ^ 32) }
    ensures second_at { IfOk result (λ done. second.new.at ≤ 2 ^ 32) }
{
    lists_below(alloc, marks, k, zones, cell, 0, first, second)?;
    lists_below(alloc, marks, k, zones, cell, 1, first, second)?;
    lists_below(alloc, marks, k, zones, cell, 2, first, second)?;
    lists_below(alloc, marks, k, zones, cell, 3, first, second)?;
    Ok(())
}

#[cycle(lists)]
fn lists_below(
    alloc: Global,
    marks: &Marks,
    k: u8,
    zones: &[&Standing],
    cell: Cell,
    q: u8,
    first: &mut Pack,
    second: &mut Pack,
) -> Result<(), AllocError>
    requires level { cell.level < 28 }
    requires cell { IsCell cell }
    requires few { length zones.now ≤ 2 ^ 32 }
    requires quarter { q < 4 }
    requires deep { k ≤ 4 }
    requires first_rows { first.old.rows + 4 ^ k ≤ 2 ^ 32 }
    requires first_at { first.old.at ≤ 2 ^ 32 }
    requires second_rows { second.old.rows + 4 ^ k ≤ 2 ^ 32 }
    requires second_at { second.old.at ≤ 2 ^ 32 }
    ensures first { IfOk result (λ done. first.new ≡ put_tree k first.old (part (standing_ground marks.now) (values zones.now) cell q)) }
    ensures second { IfOk result (λ done. second.new ≡ put_tree k second.old (part (standing_ground marks.now) (values zones.now) cell q)) }
    ensures first_at { IfOk result (λ done. first.new.at ≤ 2 ^ 32) }
    ensures second_at { IfOk result (λ done. second.new.at ≤ 2 ^ 32) }
{
    let below = cell.child(q);
    let there = part_on(alloc, zones, marks, below)?;
    lists(
        alloc,
        marks,
        k,
        there.zones.as_slice(),
        there.split,
        below,
        first,
        second,
    )?;
    Ok(())
}
