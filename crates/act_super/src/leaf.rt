//! The leaf that holds a point.

ghost use Rattle.std.specs.Prelude.{◌≡◌, ◌<◌, ◌≤◌, length};
ghost use Rattle.act_grid.specs.Cell.{IsCell};
ghost use Rattle.act_super.specs.Grounds.{leaf_at, quarter_of, some_asks};
ghost use Rattle.act_super.specs.Sound.{lone, spliced};
ghost use Rattle.act_super.specs.Standings.{standing_ground};

use crate::marks::Marks;
use crate::narrow::asks;
use crate::standing::Standing;
use act_grid::{Cell, Point};

/// The deepest level of a leaf.
const DEEPEST: u32 = 28;

/// The leaf that holds the point, where these zones stand: those before a place, perhaps one more, and those from a
/// place on. On each level down to the leaf it looks at each zone once. It takes no memory.
pub(crate) fn leaf_in(
    standings: &[Standing],
    from: usize,
    new: Option<&Standing>,
    to: usize,
    marks: &Marks,
    p: Point,
) -> Cell
    requires from { from ≤ length standings.now }
    requires to { to ≤ length standings.now }
    ensures { result ≡ leaf_at (standing_ground marks.now) (spliced standings.now from new.entry to) p }
{
    let mut cell = Cell::root();
    for _ in 0..DEEPEST {
        if !asked_in(standings, from, new, to, marks, cell) {
            return cell;
        }
        cell = cell.child(quarter(cell, p));
    }
    cell
}

// Whether one of the zones asks for the split of the cell.
fn asked_in(
    standings: &[Standing],
    from: usize,
    new: Option<&Standing>,
    to: usize,
    marks: &Marks,
    cell: Cell,
) -> bool
    requires from { from ≤ length standings.now }
    requires to { to ≤ length standings.now }
    ensures { result ≡ some_asks (standing_ground marks.now) cell (spliced standings.now from new.entry to) }
{
    if any_asks(&standings[..from], marks, cell) {
        return true;
    }
    if one_asks(new, marks, cell) {
        return true;
    }
    any_asks(&standings[to..], marks, cell)
}

fn one_asks(new: Option<&Standing>, marks: &Marks, cell: Cell) -> bool
    ensures { result ≡ some_asks (standing_ground marks.now) cell (lone new.entry) }
{
    match new {
        Some(zone) => asks(
            zone,
            zone.class_on(cell, cell.hull()),
            cell.level(),
            marks.has(cell),
        ),
        None => false,
    }
}

fn any_asks(zones: &[Standing], marks: &Marks, cell: Cell) -> bool
    ensures { result ≡ some_asks (standing_ground marks.now) cell zones.now }
{
    let hull = cell.hull();
    let level = cell.level();
    let marked = marks.has(cell);
    for zone in zones {
        if asks(zone, zone.class_on(cell, hull), level, marked) {
            return true;
        }
    }
    false
}

// The number of the child that holds a point of the cell.
fn quarter(cell: Cell, p: Point) -> u8
    requires { cell.level < 30 }
    ensures is { result ≡ quarter_of cell p }
    ensures four { result < 4 }
{
    let first = cell.child(0).hull();
    if first.hi.y < p.y {
        if first.hi.x < p.x { 3 } else { 2 }
    } else {
        if first.hi.x < p.x { 1 } else { 0 }
    }
}
