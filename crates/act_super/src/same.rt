//! Whether two shapes are equal.

ghost use Rattle.std.specs.Prelude.{◌≡◌, ◌↔◌, List, IsTrue, true, Bool};
ghost use Rattle.act_grid.specs.declared.Point.{Point};
ghost use Rattle.act_super.specs.Shapes.{same_rings};

use act_geom::Shape;

/// Whether the two shapes have the same list of rings. It takes time in proportion to the vertices.
pub(crate) fn same(a: &Shape, b: &Shape) -> bool
    ensures { result ≡ same_rings a.now b.now }
{
    if a.rings() != b.rings() {
        return false;
    }
    for k in 0..a.rings() {
        if a.ring(k) != b.ring(k) {
            return false;
        }
    }
    true
}
