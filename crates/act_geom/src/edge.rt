//! One edge and one point.

ghost use Rattle.std.specs.Prelude.{◌≡◌, ◌≤ℤ◌, ◌<ℤ◌, ◌-ℤ◌, ◌<◌, ◌^◌, pos};
ghost use Rattle.act_geom.specs.Inside.{counts, is_left};

use act_grid::Point;

/// Whether the edge from `a` to `b` counts for the point: it crosses the point's row on the point's
/// right. It multiplies only where one end is above the row and the other is not, and neither both
/// ends nor none lie right of the point.
#[inline]
pub fn edge_counts(a: Point, b: Point, p: Point) -> bool
    ensures { result ≡ counts p (record { a = a; b = b }) }
{
    let a_above = a.y > p.y;
    if a_above == (b.y > p.y) {
        return false;
    }
    if a_above {
        passes_right(b, a, p)
    } else {
        passes_right(a, b, p)
    }
}

// Whether the way up from `low` to `high` crosses the point's row right of the point.
// Each factor is below 2^32, so 64 bits hold the products.
#[inline]
fn passes_right(low: Point, high: Point, p: Point) -> bool
    requires below { low.y ≤ℤ p.y }
    requires above { p.y <ℤ high.y }
    ensures { result ≡ is_left low high p }
{
    if low.x <= p.x {
        if high.x <= p.x {
            return false;
        }
        let reach = span(low.x, high.x) * span(low.y, p.y);
        reach > span(low.x, p.x) * span(low.y, high.y)
    } else {
        if high.x > p.x {
            return true;
        }
        let reach = span(high.x, low.x) * span(low.y, p.y);
        reach < span(p.x, low.x) * span(low.y, high.y)
    }
}

/// How far `to` is above `from`.
#[inline]
pub(crate) fn span(from: i32, to: i32) -> u64
    requires { from ≤ℤ to }
    ensures value { pos result ≡ to -ℤ from }
    ensures small { result < 2 ^ 32 }
{
    (i64::from(to) - i64::from(from)) as u64
}
