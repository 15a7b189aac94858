//! Boxes around shapes.

ghost use Rattle.std.specs.Prelude.{◌≡◌, All};
ghost use Rattle.act_grid.specs.Hull.{IsIn};
ghost use Rattle.act_super.specs.Frames.{IsFrame, IsWider, is_apart, is_around};

use act_geom::Shape;
use act_grid::{Hull, Point};

/// The box around nothing: each box around it and another one is that one.
pub(crate) fn no_frame() -> Hull {
    let lo = Point {
        x: i32::MAX,
        y: i32::MAX,
    };
    let hi = Point {
        x: i32::MIN,
        y: i32::MIN,
    };
    Hull { lo, hi }
}

/// A box around the vertices of the shape. It looks at each vertex once.
pub(crate) fn frame_of(shape: &Shape) -> Hull
    ensures { IsFrame result shape.now }
{
    let mut frame = no_frame();
    for k in 0..shape.rings() {
        frame = with_ring(frame, shape.ring(k));
    }
    frame
}

// A box around a box and the vertices of a ring.
fn with_ring(frame: Hull, ring: &[Point]) -> Hull
    ensures wider { IsWider frame result }
    ensures holds { All (IsIn result) ring.now }
{
    let mut wide = frame;
    for p in ring {
        wide = with_point(wide, *p);
    }
    wide
}

/// The least box around a box and a point.
pub(crate) fn with_point(frame: Hull, p: Point) -> Hull
    ensures wider { IsWider frame result }
    ensures holds { IsIn result p }
{
    let lo = Point {
        x: frame.lo.x.min(p.x),
        y: frame.lo.y.min(p.y),
    };
    let hi = Point {
        x: frame.hi.x.max(p.x),
        y: frame.hi.y.max(p.y),
    };
    Hull { lo, hi }
}

/// The least box around two boxes.
pub(crate) fn with_frame(frame: Hull, other: Hull) -> Hull
    ensures first { IsWider frame result }
    ensures second { IsWider other result }
{
    let lo = Point {
        x: frame.lo.x.min(other.lo.x),
        y: frame.lo.y.min(other.lo.y),
    };
    let hi = Point {
        x: frame.hi.x.max(other.hi.x),
        y: frame.hi.y.max(other.hi.y),
    };
    Hull { lo, hi }
}

/// Whether the boxes share no point.
#[inline]
pub(crate) fn is_apart(frame: Hull, hull: Hull) -> bool
    ensures { result ≡ is_apart frame hull }
{
    let beside = (frame.hi.x < hull.lo.x) | (hull.hi.x < frame.lo.x);
    let above = (frame.hi.y < hull.lo.y) | (hull.hi.y < frame.lo.y);
    beside | above
}

/// Whether the first box holds each corner of the second one.
#[inline]
pub(crate) fn is_around(hull: Hull, frame: Hull) -> bool
    ensures { result ≡ is_around hull frame }
{
    let wide = (hull.lo.x <= frame.lo.x) & (frame.hi.x <= hull.hi.x);
    let tall = (hull.lo.y <= frame.lo.y) & (frame.hi.y <= hull.hi.y);
    wide & tall
}
