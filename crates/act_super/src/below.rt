//! The zones on a child of a cell, by a box around those on the cell.

ghost use Rattle.std.specs.Prelude.{◌≡◌, IfOk};
ghost use Rattle.act_super.specs.Boxes.{AreBoxed, AreFramed, AreMixed};
ghost use Rattle.act_super.specs.Grounds.{is_split, on, some_asks};
ghost use Rattle.act_super.specs.Standings.{standing_ground, values};

use crate::frame::{is_apart, is_around, no_frame, with_frame};
use crate::marks::Marks;
use crate::narrow::{Part, asks, part_on};
use crate::standing::Standing;
use act_geom::Class;
use act_grid::{Cell, Hull};
use std::alloc::{AllocError, Global};

/// The deepest level of a leaf.
const DEEPEST: u32 = 28;

/// A box around all of these zones. It looks once at each.
pub(crate) fn frame_over(zones: &[&Standing]) -> Hull
    ensures { AreFramed result (values zones.now) }
{
    let mut frame = no_frame();
    for zone in zones {
        frame = with_frame(frame, zone.frame);
    }
    frame
}

/// What of the zones, which have vertices and lie in a box, is on the cell. It looks once at each zone, where the box is
/// neither apart from the cell nor within it.
pub(crate) fn part_below<'a>(
    alloc: Global,
    zones: &[&'a Standing],
    frame: Hull,
    marks: &Marks,
    cell: Cell,
) -> Result<Part<'a>, AllocError>
    requires { AreBoxed frame (values zones.now) }
    ensures zones { IfOk result (λ part. values part.zones.items ≡ on (standing_ground marks.now) (values zones.now) cell) }
    ensures split { IfOk result (λ part. part.split ≡ is_split (standing_ground marks.now) (values zones.now) cell) }
{
    let hull = cell.hull();
    if is_apart(frame, hull) {
        return Ok(Part {
            zones: Vec::new(alloc),
            split: false,
        });
    }
    if is_around(hull, frame) {
        return part_around(alloc, zones, marks, cell);
    }
    part_on(alloc, zones, marks, cell)
}

// All of the zones, each of which is Mixed on the cell.
fn part_around<'a>(
    alloc: Global,
    zones: &[&'a Standing],
    marks: &Marks,
    cell: Cell,
) -> Result<Part<'a>, AllocError>
    requires { AreMixed cell (values zones.now) }
    ensures zones { IfOk result (λ part. values part.zones.items ≡ on (standing_ground marks.now) (values zones.now) cell) }
    ensures split { IfOk result (λ part. part.split ≡ is_split (standing_ground marks.now) (values zones.now) cell) }
{
    let mut all = Vec::with_capacity(alloc, zones.len())?;
    all.extend_from_slice(zones)?;
    Ok(Part {
        zones: all,
        split: cell.level() < DEEPEST && any_asks(zones, marks, cell),
    })
}

// Whether one of the zones, each of which is Mixed on the cell, asks for its split.
fn any_asks(zones: &[&Standing], marks: &Marks, cell: Cell) -> bool
    requires { AreMixed cell (values zones.now) }
    ensures { result ≡ some_asks (standing_ground marks.now) cell (values zones.now) }
{
    let level = cell.level();
    let marked = marks.has(cell);
    for zone in zones {
        if asks(zone, Class::Mixed, level, marked) {
            return true;
        }
    }
    false
}
