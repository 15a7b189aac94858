//! The zones on a cell.

ghost use Rattle.std.specs.Prelude.{◌≡◌, ◌&&◌, ◌||◌, IfOk, nat_lt};
ghost use Rattle.act_cover.specs.Covering.{is_on};
ghost use Rattle.act_super.specs.Grounds.{is_mixed, is_split, on};
ghost use Rattle.act_super.specs.Standings.{standing_ground, values};

use crate::marks::Marks;
use crate::standing::Standing;
use act_geom::Class;
use act_grid::Cell;
use std::alloc::{AllocError, Global};

/// The deepest level of a leaf.
const DEEPEST: u32 = 28;

/// The zones that aren't Outside on a cell, and whether the cell is split.
#[derive(Drop)]
pub(crate) struct Part<'a> {
    pub zones: Vec<&'a Standing>,
    pub split: bool,
}

/// What of the zones is on the cell. It looks once at each zone.
pub(crate) fn part_on<'a>(
    alloc: Global,
    zones: &[&'a Standing],
    marks: &Marks,
    cell: Cell,
) -> Result<Part<'a>, AllocError>
    ensures zones { IfOk result (λ part. values part.zones.items ≡ on (standing_ground marks.now) (values zones.now) cell) }
    ensures split { IfOk result (λ part. part.split ≡ is_split (standing_ground marks.now) (values zones.now) cell) }
{
    let hull = cell.hull();
    let level = cell.level();
    let marked = marks.has(cell);
    let mut found = Vec::with_capacity(alloc, zones.len())?;
    let mut asked = false;
    for zone in zones {
        let class = zone.class_on(cell, hull);
        if is_on(class) {
            found.push(*zone)?;
            asked = asked | asks(zone, class, level, marked);
        }
    }
    Ok(Part {
        zones: found,
        split: (level < DEEPEST) & asked,
    })
}

// Whether the zone, of this class on a cell, asks for the split of the cell.
#[inline]
pub(crate) fn asks(zone: &Standing, class: Class, level: u32, marked: bool) -> bool
    ensures { result ≡ (is_mixed class && (nat_lt level zone.now.level || marked)) }
{
    match class {
        Class::Mixed => (level < zone.level) | marked,
        _ => false,
    }
}

#[inline]
pub(crate) fn is_on(class: Class) -> bool
    ensures { result ≡ is_on class }
{
    match class {
        Class::Outside => false,
        _ => true,
    }
}
