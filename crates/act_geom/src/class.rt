//! How a shape lies on a cell.

ghost use Rattle.std.specs.Prelude.{◌≡◌, ◌≤ℤ◌};
ghost use Rattle.std.specs.List.{list_any};
ghost use Rattle.act_grid.specs.Cell.{hull_of};
ghost use Rattle.act_geom.specs.Edges.{ring_edges};
ghost use Rattle.act_geom.specs.Touch.{touches_hull};
ghost use Rattle.act_geom.specs.Class.{class_on};

use crate::location::inside;
use crate::shape::Shape;
use crate::touch::hull_touches;
use act_grid::{Cell, Hull, Point};

/// How a shape lies on a cell.
#[derive(Clone, Copy, Debug, PartialEq, Eq)]
pub enum Class {
    /// No edge touches the cell, and its grid points are inside.
    Inside,
    /// No edge touches the cell, and its grid points are outside.
    Outside,
    /// An edge touches the cell.
    Mixed,
}

/// How the shape lies on the cell. Where no edge touches the cell, its first point answers for all.
///
/// It looks at each edge at most twice, and takes no memory.
pub fn class_of(shape: &Shape, cell: Cell) -> Class
    ensures { result ≡ class_on shape.now (hull_of cell) }
{
    let hull = cell.hull();
    for k in 0..shape.rings() {
        if ring_touches(shape.ring(k), hull) {
            return Class::Mixed;
        }
    }
    if inside(shape, hull.lo) {
        Class::Inside
    } else {
        Class::Outside
    }
}

// Whether an edge of the ring touches the hull.
fn ring_touches(ring: &[Point], hull: Hull) -> bool
    requires wide { hull.lo.x ≤ℤ hull.hi.x }
    requires tall { hull.lo.y ≤ℤ hull.hi.y }
    ensures { result ≡ list_any (touches_hull hull) (ring_edges ring.now) }
{
    if ring.is_empty() {
        return false;
    }
    let first = ring[0];
    let mut from = first;
    for to in &ring[1..] {
        if hull_touches(hull, from, *to) {
            return true;
        }
        from = *to;
    }
    hull_touches(hull, from, first)
}
