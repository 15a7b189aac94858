//! Points and shapes.

ghost use Rattle.std.specs.Prelude.{◌≡◌};
ghost use Rattle.act_geom.specs.Edges.{ring_edges};
ghost use Rattle.act_geom.specs.Inside.{counts, is_odd_by, is_inside};

use crate::edge::edge_counts;
use crate::shape::Shape;
use act_grid::Point;

/// Whether the point is inside the shape: whether an odd number of edges counts for it.
///
/// It looks at each edge once, and takes no memory.
pub fn inside(shape: &Shape, p: Point) -> bool
    ensures { result ≡ is_inside shape.now p }
{
    let mut odd = false;
    for k in 0..shape.rings() {
        if ring_is_odd(shape.ring(k), p) {
            odd = !odd;
        }
    }
    odd
}

// Whether an odd number of the ring's edges counts for the point.
fn ring_is_odd(ring: &[Point], p: Point) -> bool
    ensures { result ≡ is_odd_by (counts p) (ring_edges ring.now) }
{
    if ring.is_empty() {
        return false;
    }
    let first = ring[0];
    let mut from = first;
    let mut odd = false;
    for to in &ring[1..] {
        if edge_counts(from, *to, p) {
            odd = !odd;
        }
        from = *to;
    }
    if edge_counts(from, first, p) {
        odd = !odd;
    }
    odd
}
