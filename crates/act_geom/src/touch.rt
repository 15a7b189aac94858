//! Edges and cells.

ghost use Rattle.std.specs.Prelude.{◌≡◌, ◌≤ℤ◌, ◌||◌, true};
ghost use Rattle.act_grid.specs.Cell.{hull_of};
ghost use Rattle.act_geom.specs.Inside.{is_left};
ghost use Rattle.act_geom.specs.Touch.{box_meets, all_left, touches_hull};

use crate::edge::span;
use act_grid::{Cell, Hull, Point};

/// Whether the edge touches the cell: its closed box meets the cell's hull, and the corners of the
/// hull don't all lie strictly on one side of the edge's line. An edge of length 0 touches exactly
/// where its point lies in the hull.
pub fn touches(cell: Cell, a: Point, b: Point) -> bool
    ensures { result ≡ touches_hull (hull_of cell) (record { a = a; b = b }) }
{
    hull_touches(cell.hull(), a, b)
}

/// Whether the edge touches the hull, for callers that test many edges against one cell. It compares
/// boxes first, and then multiplies at most four times, for the two corners that can decide.
#[inline]
pub fn hull_touches(hull: Hull, a: Point, b: Point) -> bool
    requires wide { hull.lo.x ≤ℤ hull.hi.x }
    requires tall { hull.lo.y ≤ℤ hull.hi.y }
    ensures { result ≡ touches_hull hull (record { a = a; b = b }) }
{
    if !boxes_meet(hull, a, b) {
        return false;
    }
    if a.y <= b.y {
        !line_misses(hull, a, b)
    } else {
        !line_misses(hull, b, a)
    }
}

// Whether the closed box of the edge meets the hull.
#[inline]
fn boxes_meet(hull: Hull, a: Point, b: Point) -> bool
    ensures { result ≡ box_meets hull (record { a = a; b = b }) }
{
    let west = (a.x < hull.lo.x) & (b.x < hull.lo.x);
    let east = (hull.hi.x < a.x) & (hull.hi.x < b.x);
    let south = (a.y < hull.lo.y) & (b.y < hull.lo.y);
    let north = (hull.hi.y < a.y) & (hull.hi.y < b.y);
    !(west | east | south | north)
}

// Whether the hull lies strictly on one side of the line of an edge whose box meets it.
#[inline]
fn line_misses(hull: Hull, low: Point, high: Point) -> bool
    requires wide { hull.lo.x ≤ℤ hull.hi.x }
    requires tall { hull.lo.y ≤ℤ hull.hi.y }
    requires up { low.y ≤ℤ high.y }
    requires meets { box_meets hull (record { a = low; b = high }) ≡ true }
    ensures { result ≡ (all_left hull low high || all_left hull high low) }
{
    if low.x <= high.x {
        let south_east = Point {
            x: hull.hi.x,
            y: hull.lo.y,
        };
        let north_west = Point {
            x: hull.lo.x,
            y: hull.hi.y,
        };
        left_of_east(low, high, south_east) || right_of_east(low, high, north_west)
    } else {
        left_of_west(low, high, hull.hi) || right_of_west(low, high, hull.lo)
    }
}

// The point on the left of a way up to the east.
#[inline]
fn left_of_east(low: Point, high: Point, p: Point) -> bool
    requires east { low.x ≤ℤ high.x }
    requires up { low.y ≤ℤ high.y }
    requires after { low.x ≤ℤ p.x }
    ensures { result ≡ is_left low high p }
{
    if p.y <= low.y {
        return false;
    }
    let reach = span(low.x, high.x) * span(low.y, p.y);
    reach > span(low.x, p.x) * span(low.y, high.y)
}

// The point on the right of a way up to the east.
#[inline]
fn right_of_east(low: Point, high: Point, p: Point) -> bool
    requires east { low.x ≤ℤ high.x }
    requires up { low.y ≤ℤ high.y }
    requires over { low.y ≤ℤ p.y }
    ensures { result ≡ is_left high low p }
{
    if p.x <= low.x {
        return false;
    }
    let reach = span(low.x, high.x) * span(low.y, p.y);
    reach < span(low.x, p.x) * span(low.y, high.y)
}

// The point on the left of a way up to the west.
#[inline]
fn left_of_west(low: Point, high: Point, p: Point) -> bool
    requires west { high.x ≤ℤ low.x }
    requires up { low.y ≤ℤ high.y }
    requires over { low.y ≤ℤ p.y }
    ensures { result ≡ is_left low high p }
{
    if low.x <= p.x {
        return false;
    }
    let reach = span(high.x, low.x) * span(low.y, p.y);
    reach < span(p.x, low.x) * span(low.y, high.y)
}

// The point on the right of a way up to the west.
#[inline]
fn right_of_west(low: Point, high: Point, p: Point) -> bool
    requires west { high.x ≤ℤ low.x }
    requires up { low.y ≤ℤ high.y }
    requires before { p.x ≤ℤ low.x }
    ensures { result ≡ is_left high low p }
{
    if p.y <= low.y {
        return false;
    }
    let reach = span(high.x, low.x) * span(low.y, p.y);
    reach > span(p.x, low.x) * span(low.y, high.y)
}
