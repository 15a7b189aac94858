//! What one more trained cell changes of the rows.

ghost use Rattle.std.specs.Prelude.{◌≡◌, ◌+◌, ◌*◌, ◌^◌, ◌<◌, ◌≤◌, IfOk, false, length};
ghost use Rattle.act_grid.specs.Cell.{IsCell, IsPart};
ghost use Rattle.act_super.specs.Grounds.{is_split, on};
ghost use Rattle.act_super.specs.Growths.{IsGrowth};
ghost use Rattle.act_super.specs.Packs.{inner, put_tree};
ghost use Rattle.act_super.specs.Parts.{four_parts, inner_four, part, put_four};
ghost use Rattle.act_super.specs.Shifts.{added};
ghost use Rattle.act_super.specs.Standings.{standing_ground, standing_rows, values};
ghost use Rattle.act_super.specs.Trees.{under};

use crate::lists::lists;
use crate::marks::Marks;
use crate::narrow::part_on;
use crate::pack::Pack;
use crate::standing::Standing;
use crate::whole::whole;
use act_grid::Cell;
use std::alloc::{AllocError, Global};

/// The rows that fall away with one more trained cell, and those that come.
#[derive(Clone, Copy, Debug, PartialEq, Eq)]
pub(crate) struct Growth {
    pub less: u64,
    pub more: u64,
}

/// The rows that the zones take with one more trained cell. What they take without it is given. It looks at the cells on
/// the way to the new one, and at those of its node.
pub(crate) fn rows_grown(
    alloc: Global,
    zones: &[&Standing],
    old: &Marks,
    new: &Marks,
    fresh: Cell,
    rows: u64,
) -> Result<u64, AllocError>
    requires few { length zones.now < 2 ^ 32 }
    requires longer { new.now ≡ added old.now fresh }
    requires rows { rows ≡ standing_rows old.now (values zones.now) }
    requires small { rows < 2 ^ 32 }
    ensures { IfOk result (λ found. found ≡ standing_rows new.now (values zones.now)) }
{
    let root = Cell::root();
    let top = part_on(alloc, zones, old, root)?;
    let mut first = Pack::empty();
    let mut second = Pack::empty();
    let growth = grown(
        alloc,
        old,
        new,
        fresh,
        4,
        top.zones.as_slice(),
        top.split,
        root,
        &mut first,
        &mut second,
    )?;
    let with = rows + second.rows + growth.more;
    let found = with - first.rows - growth.less;
    Ok(found)
}

/// The part under a cell with the old trained cells, and with one more. It goes down only towards the new one, but for
/// the lists of the node at hand. The zones are those on the cell, and `split` says whether it is split with the old ones.
#[cycle(grown)]
fn grown(
    alloc: Global,
    old: &Marks,
    new: &Marks,
    fresh: Cell,
    k: u8,
    zones: &[&Standing],
    split: bool,
    cell: Cell,
    without: &mut Pack,
    with: &mut Pack,
) -> Result<Growth, AllocError>
    requires level { cell.level ≤ 28 }
    requires cell { IsCell cell }
    requires few { length zones.now < 2 ^ 32 }
    requires on { on (standing_ground old.now) (values zones.now) cell ≡ values zones.now }
    requires split { split ≡ is_split (standing_ground old.now) (values zones.now) cell }
    requires longer { new.now ≡ added old.now fresh }
    requires deep { k ≤ 4 }
    requires without_rows { without.old.rows + 4 ^ k ≤ 2 ^ 32 }
    requires without_at { without.old.at ≤ 2 ^ 32 }
    requires with_rows { with.old.rows + 4 ^ k ≤ 2 ^ 32 }
    requires with_at { with.old.at ≤ 2 ^ 32 }
    ensures without { IfOk result (λ growth. without.new ≡ put_tree k without.old (under (standing_ground old.now) (values zones.now) cell)) }
    ensures with { IfOk result (λ growth. with.new ≡ put_tree k with.old (under (standing_ground new.now) (values zones.now) cell)) }
    ensures without_at { IfOk result (λ growth. without.new.at ≤ 2 ^ 32) }
    ensures with_at { IfOk result (λ growth. with.new.at ≤ 2 ^ 32) }
    ensures growth { IfOk result (λ growth. IsGrowth (inner k (under (standing_ground old.now) (values zones.now) cell)) (inner k (under (standing_ground new.now) (values zones.now) cell)) growth) }
{
    if !may_hold(cell, fresh) {
        lists(alloc, old, k, zones, split, cell, without, with)?;
        return Ok(Growth { less: 0, more: 0 });
    }
    if split {
        if k == 0 {
            let mut first = Pack::empty();
            let mut second = Pack::empty();
            let growth = grown_four(
                alloc,
                old,
                new,
                fresh,
                3,
                zones,
                cell,
                &mut first,
                &mut second,
            )?;
            return Ok(Growth {
                less: first.rows + growth.less,
                more: second.rows + growth.more,
            });
        }
        let growth = grown_four(alloc, old, new, fresh, k - 1, zones, cell, without, with)?;
        return Ok(growth);
    }
    without.put_leaf(zones.len());
    let more = part_rows(alloc, new, k, zones, cell, with)?;
    Ok(Growth { less: 0, more })
}

#[cycle(grown)]
fn grown_four(
    alloc: Global,
    old: &Marks,
    new: &Marks,
    fresh: Cell,
    k: u8,
    zones: &[&Standing],
    cell: Cell,
    without: &mut Pack,
    with: &mut Pack,
) -> Result<Growth, AllocError>
    requires level { cell.level < 28 }
    requires cell { IsCell cell }
    requires few { length zones.now < 2 ^ 32 }
    requires longer { new.now ≡ added old.now fresh }
    requires deep { k ≤ 4 }
    requires without_rows { without.old.rows + 4 * 4 ^ k ≤ 2 ^ 32 }
    requires without_at { without.old.at ≤ 2 ^ 32 }
    requires with_rows { with.old.rows + 4 * 4 ^ k ≤ 2 ^ 32 }
    requires with_at { with.old.at ≤ 2 ^ 32 }
    ensures without { IfOk result (λ growth. without.new ≡ put_four k without.old (four_parts (standing_ground old.now) (values zones.now) cell)) }
    ensures with { IfOk result (λ growth. with.new ≡ put_four k with.old (four_parts (standing_ground new.now) (values zones.now) cell)) }
    ensures without_at { IfOk result (λ growth. without.new.at ≤ 2 ^ 32) }
    ensures with_at { IfOk result (λ growth. with.new.at ≤ 2 ^ 32) }
    ensures growth { IfOk result (λ growth. IsGrowth (inner_four k (four_parts (standing_ground old.now) (values zones.now) cell)) (inner_four k (four_parts (standing_ground new.now) (values zones.now) cell)) growth) }
{
    let a = grown_below(alloc, old, new, fresh, k, zones, cell, 0, without, with)?;
    let b = grown_below(alloc, old, new, fresh, k, zones, cell, 1, without, with)?;
    let c = grown_below(alloc, old, new, fresh, k, zones, cell, 2, without, with)?;
    let d = grown_below(alloc, old, new, fresh, k, zones, cell, 3, without, with)?;
    Ok(Growth {
        less: a.less + b.less + c.less + d.less,
        more: a.more + b.more + c.more + d.more,
    })
}

#[cycle(grown)]
fn grown_below(
    alloc: Global,
    old: &Marks,
    new: &Marks,
    fresh: Cell,
    k: u8,
    zones: &[&Standing],
    cell: Cell,
    q: u8,
    without: &mut Pack,
    with: &mut Pack,
) -> Result<Growth, AllocError>
    requires level { cell.level < 28 }
    requires cell { IsCell cell }
    requires few { length zones.now < 2 ^ 32 }
    requires longer { new.now ≡ added old.now fresh }
    requires quarter { q < 4 }
    requires deep { k ≤ 4 }
    requires without_rows { without.old.rows + 4 ^ k ≤ 2 ^ 32 }
    requires without_at { without.old.at ≤ 2 ^ 32 }
    requires with_rows { with.old.rows + 4 ^ k ≤ 2 ^ 32 }
    requires with_at { with.old.at ≤ 2 ^ 32 }
    ensures without { IfOk result (λ growth. without.new ≡ put_tree k without.old (part (standing_ground old.now) (values zones.now) cell q)) }
    ensures with { IfOk result (λ growth. with.new ≡ put_tree k with.old (part (standing_ground new.now) (values zones.now) cell q)) }
    ensures without_at { IfOk result (λ growth. without.new.at ≤ 2 ^ 32) }
    ensures with_at { IfOk result (λ growth. with.new.at ≤ 2 ^ 32) }
    ensures growth { IfOk result (λ growth. IsGrowth (inner k (part (standing_ground old.now) (values zones.now) cell q)) (inner k (part (standing_ground new.now) (values zones.now) cell q)) growth) }
    ensures fits { IfOk result (λ growth. (growth.less < 2 ^ 57) × (growth.more < 2 ^ 57)) }
{
    let below = cell.child(q);
    let there = part_on(alloc, zones, old, below)?;
    let growth = grown(
        alloc,
        old,
        new,
        fresh,
        k,
        there.zones.as_slice(),
        there.split,
        below,
        without,
        with,
    )?;
    Ok(growth)
}

// The rows of the nodes below, from the zones on a cell.
fn part_rows(
    alloc: Global,
    marks: &Marks,
    k: u8,
    zones: &[&Standing],
    cell: Cell,
    pack: &mut Pack,
) -> Result<u64, AllocError>
    requires level { cell.level ≤ 28 }
    requires cell { IsCell cell }
    requires few { length zones.now < 2 ^ 32 }
    requires on { on (standing_ground marks.now) (values zones.now) cell ≡ values zones.now }
    requires deep { k ≤ 4 }
    requires rows { pack.old.rows + 4 ^ k ≤ 2 ^ 32 }
    requires at { pack.old.at ≤ 2 ^ 32 }
    ensures put { IfOk result (λ rows. pack.new ≡ put_tree k pack.old (under (standing_ground marks.now) (values zones.now) cell)) }
    ensures at { IfOk result (λ rows. pack.new.at ≤ 2 ^ 32) }
    ensures rows { IfOk result (λ rows. rows ≡ inner k (under (standing_ground marks.now) (values zones.now) cell)) }
{
    let there = part_on(alloc, zones, marks, cell)?;
    let found = whole(
        alloc,
        marks,
        k,
        there.zones.as_slice(),
        there.split,
        cell,
        pack,
    )?;
    Ok(found.rows)
}

// Whether the second cell may lie in the first.
fn may_hold(cell: Cell, fresh: Cell) -> bool
    ensures { result ≡ false → IsPart cell fresh → ⊥ }
{
    let _level = cell.level();
    let _deep = fresh.level();
    let hull = fresh.hull();
    cell.contains(hull.lo)
}
