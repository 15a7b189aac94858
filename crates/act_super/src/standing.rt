//! Zones that stand, with what is kept beside their shapes.

ghost use Rattle.std.specs.Prelude.{◌≡◌, ◌≤◌};
ghost use Rattle.act_grid.specs.Cell.{hull_of};
ghost use Rattle.act_geom.specs.Edges.{edges_of};
ghost use Rattle.act_geom.specs.Inside.{is_inside};
ghost use Rattle.act_cover.specs.Covering.{class_at};
ghost use Rattle.act_cover.specs.Level.{level_of};
ghost use Rattle.act_super.specs.Frames.{IsFrame};

use crate::blocks::Blocks;
use crate::frame::{frame_of, is_apart, is_around};
use act_cover::{Classes, cover_level};
use act_geom::{Class, Shape};
use act_grid::{Cell, Hull, Point};

/// A zone's shape, with the Level of its covering, a box around its vertices, and its edges in blocks.
#[derive(Drop)]
pub(crate) struct Standing {
    pub shape: Shape,
    pub level: u32,
    pub frame: Hull,
    blocks: Blocks,
    ghost framed: { IsFrame frame shape },
    ghost parted: { blocks ≡ edges_of shape },
}

impl Standing {
    /// The shape with what is kept beside it, its edges in blocks being given, for a budget of so many cells. It looks at
    /// each vertex once for the box, and the cells that `cover_level` asks about are classed by `class_on`.
    pub fn new(shape: Shape, blocks: Blocks, cells: u32) -> Standing
        requires blocks { blocks ≡ edges_of shape }
        requires least { 1 ≤ cells }
        requires most { cells ≤ 1024 }
        ensures shape { result.shape ≡ shape }
        ensures level { result.level ≡ level_of shape cells }
    {
        let frame = frame_of(&shape);
        let mut zone = Standing {
            shape,
            level: 0,
            frame,
            blocks,
        };
        zone.level = cover_level(&zone, cells);
        zone
    }

    /// How the shape lies on the cell, whose hull is given. A cell apart from the box or around it takes constant time, and
    /// any other one a look at what bounds each 1,024 edges, and at the blocks of 16 edges in those near the cell.
    #[inline]
    pub fn class_on(&self, cell: Cell, hull: Hull) -> Class
        requires { hull ≡ hull_of cell }
        ensures { result ≡ class_at self.now.shape cell }
    {
        if is_apart(self.frame, hull) {
            return Class::Outside;
        }
        if is_around(hull, self.frame) && self.shape.vertices() > 0 {
            return Class::Mixed;
        }
        self.blocks.class_on(hull)
    }

    /// Whether the point is inside the shape. A point outside of the box takes constant time.
    #[inline]
    pub fn contains(&self, p: Point) -> bool
        ensures { result ≡ is_inside self.now.shape p }
    {
        if is_apart(self.frame, Hull { lo: p, hi: p }) {
            return false;
        }
        self.blocks.hold(p)
    }
}

impl Classes for Standing {
    ghost rings = { λ s. s.shape };

    fn class_at(&self, cell: Cell) -> Class {
        self.class_on(cell, cell.hull())
    }
}
