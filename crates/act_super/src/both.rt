//! A part of the super covering without and with one zone.

ghost use Rattle.std.specs.Prelude.{◌≡◌, ◌+◌, ◌*◌, ◌^◌, ◌<◌, ◌≤◌, ◌&&◌, IfOk, length, nat_lt, true};
ghost use Rattle.act_grid.specs.Cell.{IsCell};
ghost use Rattle.act_cover.specs.Covering.{class_at, is_on};
ghost use Rattle.act_super.specs.Boxes.{AreBoxed};
ghost use Rattle.act_super.specs.Grounds.{asks, is_split, on};
ghost use Rattle.act_super.specs.Packs.{inner, put_tree};
ghost use Rattle.act_super.specs.Parts.{four_parts, inner_four, most_four, part, put_four};
ghost use Rattle.act_super.specs.Shifts.{IsShift, added};
ghost use Rattle.act_super.specs.Standings.{standing_ground, values};
ghost use Rattle.act_super.specs.Trees.{most, under};

use crate::below::part_below;
use crate::lists::lists;
use crate::marks::Marks;
use crate::narrow::{asks, is_on};
use crate::pack::Pack;
use crate::standing::Standing;
use crate::whole::{Found, whole};
use act_grid::{Cell, Hull};
use std::alloc::{AllocError, Global};

/// The deepest level of a leaf.
const DEEPEST: u32 = 28;

/// The rows that fall away with one zone more, and those that come. Then the greatest number of references among the
/// leaves that change, without the zone and with it.
#[derive(Clone, Copy, Debug, PartialEq, Eq)]
pub(crate) struct Shift {
    pub less: u64,
    pub more: u64,
    pub without: u64,
    pub with: u64,
}

/// The part under a cell without and with a zone that isn't Outside on it. It goes down only where the zone isn't
/// Outside, but for the lists of the node at hand. The zones are those on the cell, within the box, `split` says whether
/// it is split without the zone, and `wanted` whether the zone asks for it.
#[cycle(both)]
pub(crate) fn both(
    alloc: Global,
    marks: &Marks,
    k: u8,
    zones: &[&Standing],
    frame: Hull,
    split: bool,
    zone: &Standing,
    wanted: bool,
    cell: Cell,
    without: &mut Pack,
    with: &mut Pack,
) -> Result<Shift, AllocError>
    requires level { cell.level ≤ 28 }
    requires cell { IsCell cell }
    requires few { length zones.now < 2 ^ 32 }
    requires boxed { AreBoxed frame (values zones.now) }
    requires on { on (standing_ground marks.now) (values zones.now) cell ≡ values zones.now }
    requires split { split ≡ is_split (standing_ground marks.now) (values zones.now) cell }
    requires zone_on { is_on (class_at zone.now.shape cell) ≡ true }
    requires wanted { wanted ≡ (nat_lt cell.level 28 && asks (standing_ground marks.now) cell zone.now) }
    requires deep { k ≤ 4 }
    requires without_rows { without.old.rows + 4 ^ k ≤ 2 ^ 32 }
    requires without_at { without.old.at ≤ 2 ^ 32 }
    requires with_rows { with.old.rows + 4 ^ k ≤ 2 ^ 32 }
    requires with_at { with.old.at ≤ 2 ^ 32 }
    ensures without { IfOk result (λ shift. without.new ≡ put_tree k without.old (under (standing_ground marks.now) (values zones.now) cell)) }
    ensures with { IfOk result (λ shift. with.new ≡ put_tree k with.old (under (standing_ground marks.now) (added (values zones.now) zone.now) cell)) }
    ensures without_at { IfOk result (λ shift. without.new.at ≤ 2 ^ 32) }
    ensures with_at { IfOk result (λ shift. with.new.at ≤ 2 ^ 32) }
    ensures shift { IfOk result (λ shift. let old = under (standing_ground marks.now) (values zones.now) cell in let new = under (standing_ground marks.now) (added (values zones.now) zone.now) cell in IsShift (inner k old) (inner k new) (most old) (most new) shift) }
{
    if split {
        if k == 0 {
            let mut old = Pack::empty();
            let mut new = Pack::empty();
            let shift = both_four(
                alloc, marks, 3, zones, frame, zone, cell, &mut old, &mut new,
            )?;
            return Ok(Shift {
                less: old.rows + shift.less,
                more: new.rows + shift.more,
                without: shift.without,
                with: shift.with,
            });
        }
        let shift = both_four(alloc, marks, k - 1, zones, frame, zone, cell, without, with)?;
        return Ok(shift);
    }
    let count = zones.len() as u64;
    without.put_leaf(zones.len());
    if wanted {
        let found = whole_with(alloc, marks, k, zones, zone, cell, with)?;
        return Ok(Shift {
            less: 0,
            more: found.rows,
            without: count,
            with: found.most,
        });
    }
    with.put_leaf(zones.len() + 1);
    Ok(Shift {
        less: 0,
        more: 0,
        without: count,
        with: count + 1,
    })
}

#[cycle(both)]
fn both_four(
    alloc: Global,
    marks: &Marks,
    k: u8,
    zones: &[&Standing],
    frame: Hull,
    zone: &Standing,
    cell: Cell,
    without: &mut Pack,
    with: &mut Pack,
) -> Result<Shift, AllocError>
    requires level { cell.level < 28 }
    requires cell { IsCell cell }
    requires few { length zones.now < 2 ^ 32 }
    requires boxed { AreBoxed frame (values zones.now) }
    requires deep { k ≤ 4 }
    requires without_rows { without.old.rows + 4 * 4 ^ k ≤ 2 ^ 32 }
    requires without_at { without.old.at ≤ 2 ^ 32 }
    requires with_rows { with.old.rows + 4 * 4 ^ k ≤ 2 ^ 32 }
    requires with_at { with.old.at ≤ 2 ^ 32 }
    ensures without { IfOk result (λ shift. without.new ≡ put_four k without.old (four_parts (standing_ground marks.now) (values zones.now) cell)) }
    ensures with { IfOk result (λ shift. with.new ≡ put_four k with.old (four_parts (standing_ground marks.now) (added (values zones.now) zone.now) cell)) }
    ensures without_at { IfOk result (λ shift. without.new.at ≤ 2 ^ 32) }
    ensures with_at { IfOk result (λ shift. with.new.at ≤ 2 ^ 32) }
    ensures shift { IfOk result (λ shift. let old = four_parts (standing_ground marks.now) (values zones.now) cell in let new = four_parts (standing_ground marks.now) (added (values zones.now) zone.now) cell in IsShift (inner_four k old) (inner_four k new) (most_four old) (most_four new) shift) }
{
    let a = both_below(alloc, marks, k, zones, frame, zone, cell, 0, without, with)?;
    let b = both_below(alloc, marks, k, zones, frame, zone, cell, 1, without, with)?;
    let c = both_below(alloc, marks, k, zones, frame, zone, cell, 2, without, with)?;
    let d = both_below(alloc, marks, k, zones, frame, zone, cell, 3, without, with)?;
    Ok(Shift {
        less: a.less + b.less + c.less + d.less,
        more: a.more + b.more + c.more + d.more,
        without: a.without.max(b.without).max(c.without.max(d.without)),
        with: a.with.max(b.with).max(c.with.max(d.with)),
    })
}

#[cycle(both)]
fn both_below(
    alloc: Global,
    marks: &Marks,
    k: u8,
    zones: &[&Standing],
    frame: Hull,
    zone: &Standing,
    cell: Cell,
    q: u8,
    without: &mut Pack,
    with: &mut Pack,
) -> Result<Shift, AllocError>
    requires level { cell.level < 28 }
    requires cell { IsCell cell }
    requires few { length zones.now < 2 ^ 32 }
    requires boxed { AreBoxed frame (values zones.now) }
    requires quarter { q < 4 }
    requires deep { k ≤ 4 }
    requires without_rows { without.old.rows + 4 ^ k ≤ 2 ^ 32 }
    requires without_at { without.old.at ≤ 2 ^ 32 }
    requires with_rows { with.old.rows + 4 ^ k ≤ 2 ^ 32 }
    requires with_at { with.old.at ≤ 2 ^ 32 }
    ensures without { IfOk result (λ shift. without.new ≡ put_tree k without.old (part (standing_ground marks.now) (values zones.now) cell q)) }
    ensures with { IfOk result (λ shift. with.new ≡ put_tree k with.old (part (standing_ground marks.now) (added (values zones.now) zone.now) cell q)) }
    ensures without_at { IfOk result (λ shift. without.new.at ≤ 2 ^ 32) }
    ensures with_at { IfOk result (λ shift. with.new.at ≤ 2 ^ 32) }
    ensures shift { IfOk result (λ shift. let old = part (standing_ground marks.now) (values zones.now) cell q in let new = part (standing_ground marks.now) (added (values zones.now) zone.now) cell q in IsShift (inner k old) (inner k new) (most old) (most new) shift) }
    ensures fits { IfOk result (λ shift. (shift.less < 2 ^ 57) × (shift.more < 2 ^ 57)) }
{
    let below = cell.child(q);
    let there = part_below(alloc, zones, frame, marks, below)?;
    let class = zone.class_on(below, below.hull());
    if is_on(class) {
        let level = below.level();
        let wanted = (level < DEEPEST) & asks(zone, class, level, marks.has(below));
        let shift = both(
            alloc,
            marks,
            k,
            there.zones.as_slice(),
            frame,
            there.split,
            zone,
            wanted,
            below,
            without,
            with,
        )?;
        return Ok(shift);
    }
    lists(
        alloc,
        marks,
        k,
        there.zones.as_slice(),
        there.split,
        below,
        without,
        with,
    )?;
    Ok(Shift {
        less: 0,
        more: 0,
        without: 0,
        with: 0,
    })
}

/// What `whole` tells of the zones with one more, which asks for the split of the cell.
fn whole_with(
    alloc: Global,
    marks: &Marks,
    k: u8,
    zones: &[&Standing],
    zone: &Standing,
    cell: Cell,
    pack: &mut Pack,
) -> Result<Found, AllocError>
    requires level { cell.level ≤ 28 }
    requires cell { IsCell cell }
    requires few { length zones.now < 2 ^ 32 }
    requires on { on (standing_ground marks.now) (values zones.now) cell ≡ values zones.now }
    requires zone_on { is_on (class_at zone.now.shape cell) ≡ true }
    requires wanted { (nat_lt cell.level 28 && asks (standing_ground marks.now) cell zone.now) ≡ true }
    requires deep { k ≤ 4 }
    requires rows { pack.old.rows + 4 ^ k ≤ 2 ^ 32 }
    requires at { pack.old.at ≤ 2 ^ 32 }
    ensures put { IfOk result (λ found. pack.new ≡ put_tree k pack.old (under (standing_ground marks.now) (added (values zones.now) zone.now) cell)) }
    ensures at { IfOk result (λ found. pack.new.at ≤ 2 ^ 32) }
    ensures rows { IfOk result (λ found. found.rows ≡ inner k (under (standing_ground marks.now) (added (values zones.now) zone.now) cell)) }
    ensures most { IfOk result (λ found. found.most ≡ most (under (standing_ground marks.now) (added (values zones.now) zone.now) cell)) }
{
    let all = with_zone(alloc, zones, zone)?;
    let found = whole(alloc, marks, k, all.as_slice(), true, cell, pack)?;
    Ok(found)
}

/// The zones with one more.
pub(crate) fn with_zone<'a>(
    alloc: Global,
    zones: &[&'a Standing],
    zone: &'a Standing,
) -> Result<Vec<&'a Standing>, AllocError>
    ensures { IfOk result (λ all. values all.items ≡ added (values zones.now) zone.now) }
{
    let mut all = Vec::with_capacity(alloc, zones.len() + 1)?;
    all.extend_from_slice(zones)?;
    all.push(zone)?;
    Ok(all)
}
