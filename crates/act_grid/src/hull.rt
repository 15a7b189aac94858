//! Closed boxes of grid points.

ghost use Rattle.std.specs.Prelude.{◌↔◌, IsTrue};
ghost use Rattle.act_grid.specs.Hull.{IsIn};

use crate::point::Point;

/// The grid points from a low corner to a high one, both counted.
#[derive(Clone, Copy, Debug, PartialEq, Eq)]
pub struct Hull {
    /// The corner in the south-west.
    pub lo: Point,
    /// The corner in the north-east.
    pub hi: Point,
}

/// Whether the point lies in the box, its border counted.
#[inline]
pub(crate) fn is_in(hull: Hull, p: Point) -> bool
    ensures { IsTrue result ↔ IsIn hull p }
{
    if p.x < hull.lo.x || hull.hi.x < p.x {
        return false;
    }
    hull.lo.y <= p.y && p.y <= hull.hi.y
}
