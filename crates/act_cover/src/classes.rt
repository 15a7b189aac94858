//! Who classes the cells of a covering.

ghost use Rattle.std.specs.Prelude.{◌≡◌, List};
ghost use Rattle.act_grid.specs.declared.Point.{Point};
ghost use Rattle.act_cover.specs.Covering.{class_at};

use act_geom::{Class, Shape, class_of};
use act_grid::Cell;

/// What tells how a shape lies on cells. A level asks it once for each child of a Mixed cell.
pub trait Classes {
    /// The rings of the shape.
    ghost rings: { Self → List (List Point) };

    /// How the shape lies on the cell.
    fn class_at(&self, cell: Cell) -> Class
        ensures { result ≡ class_at (rings self.now) cell };
}

/// A shape by itself looks at each of its edges at most twice for a cell.
impl Classes for Shape {
    ghost rings = { λ shape. shape };

    fn class_at(&self, cell: Cell) -> Class {
        class_of(self, cell)
    }
}
