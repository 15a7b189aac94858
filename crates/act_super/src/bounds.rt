//! What is kept of edges together.

ghost use Rattle.std.specs.Prelude.{◌≡◌, ◌++◌, [], ◌∷◌, All, IfSome, List, int_le, int_lt};
ghost use Rattle.act_grid.specs.declared.Point.{Point as Spot};
ghost use Rattle.act_geom.specs.Inside.{counts, is_odd_by};
ghost use Rattle.act_grid.specs.Hull.{IsIn};
ghost use Rattle.act_super.specs.Frames.{IsWider};
ghost use Rattle.act_super.specs.Bounds.{IsBound, IsSideIn, TellEnds, edges_in, ends_of, is_beside};
ghost use Rattle.act_super.specs.declared.blocks.Side.{Side as SideOf};

use crate::blocks::Side;
use crate::ends::Ends;
use crate::frame::with_point;
use act_grid::{Hull, Point};

/// A box around the ends of edges, and these ends as far as they tell the parity above a row.
#[derive(Drop)]
pub(crate) struct Bounds {
    pub frame: Hull,
    pub ends: Ends,
}

// A box around the ends of the edges.
fn frame_of(sides: &[Side]) -> Hull
    ensures { All (λ s. IsSideIn result s) sides.now }
{
    let lo = Point {
        x: i32::MAX,
        y: i32::MAX,
    };
    let hi = Point {
        x: i32::MIN,
        y: i32::MIN,
    };
    let mut frame = Hull { lo, hi };
    for side in sides {
        frame = with_side(frame, side.a, side.b);
    }
    frame
}

// The least box around a box and the ends of an edge.
fn with_side(frame: Hull, a: Point, b: Point) -> Hull
    ensures wider { IsWider frame result }
    ensures from { IsIn result a }
    ensures to { IsIn result b }
{
    with_point(with_point(frame, a), b)
}

// The ends of the edges.
fn ends_of(sides: &[Side]) -> Ends
    ensures { TellEnds result (ends_of sides.now) }
{
    let mut ends = Ends::none();
    for side in sides {
        put_side(&mut ends, *side);
    }
    ends
}

fn put_side(ends: &mut Ends, side: Side)
    ensures { (points : List Spot) → TellEnds ends.old points → TellEnds ends.new (points ++ side.a ∷ side.b ∷ []) }
{
    ends.put(side.a);
    ends.put(side.b);
}

// Whether no edge in the box counts for the point: it lies below the box, or not below its top.
#[inline]
fn is_beside(frame: Hull, p: Point) -> bool
    ensures { result ≡ is_beside frame p }
{
    (p.y < frame.lo.y) | (frame.hi.y < p.y)
}

// Whether the point lies at the east side of the box or beyond.
#[inline]
fn is_behind(frame: Hull, p: Point) -> bool
    ensures { result ≡ int_le frame.hi.x p.x }
{
    frame.hi.x <= p.x
}

// Whether it lies west of the box.
#[inline]
fn is_before(frame: Hull, p: Point) -> bool
    ensures { result ≡ int_lt p.x frame.lo.x }
{
    p.x < frame.lo.x
}

impl Bounds {
    /// The bounds of the edges. It looks at each edge twice.
    pub fn of(sides: &[Side]) -> Bounds
        ensures { IsBound result sides.now }
    {
        Bounds {
            frame: frame_of(sides),
            ends: ends_of(sides),
        }
    }

    /// Whether an odd number of the edges counts for the point, where the bounds say so: the point lies beside the box. It
    /// takes constant time.
    #[inline]
    pub fn odd_at(&self, p: Point) -> Option<bool>
        ensures { IfSome result (λ odd. (sides : List SideOf) → IsBound self.now sides → odd ≡ is_odd_by (counts p) (edges_in sides)) }
    {
        if is_beside(self.frame, p) {
            return Some(false);
        }
        if is_behind(self.frame, p) {
            return Some(false);
        }
        if is_before(self.frame, p) {
            return self.ends.odd_above(p);
        }
        None
    }
}
