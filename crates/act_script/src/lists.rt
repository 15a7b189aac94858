//! Lists of ids and of points.

use act_grid::Point;
use std::marker::Model;

/// The ids of points.
#[derive(Debug, Drop)]
pub struct Ids {
    items: Vec<u64>,
}

impl Model for Ids {
    ghost use Rattle.std.specs.Prelude.{List, ℕ};

    ghost Value = { List ℕ };

    ghost view = { λ ids. ids.items.items };
}

impl Ids {
    ghost use Rattle.std.specs.Prelude.{◌≡◌};
    ghost use Rattle.std.specs.Borrow.{Lends, sem, u64};
    ghost use Rattle.std.specs.contracts.alloc.Global as global;
    ghost use Rattle.std.specs.contracts.vec.Vec as vec;
    ghost use Rattle.std.specs.contracts.impls.GlobalAllocator.TheImpl.{ghosts};
    ghost use Rattle.act_script.specs.contracts.lists.Ids.{the_row};

    /// The list of these items. It takes constant time.
    pub fn from_vec(items: Vec<u64>) -> Ids
        ensures { result ≡ items.items }
    {
        Ids { items }
    }

    /// The items.
    pub fn into_vec(self) -> Vec<u64>
        ensures { result.items ≡ self }
    {
        self.items
    }

    pub fn as_slice(&self) -> &[u64]
        ensures { result.now ≡ self.now }
    {
        &self.items
    }

    /// The items, to be changed in place.
    pub fn vec_mut(&mut self) -> &mut Vec<u64>
        ensures* writes_back { sem 𝓛 (Lends the_row (vec.the_row u64 global.the_row ghosts) self.entry result (λ v. v.items)) }
        ensures shows { result.now.items ≡ self.old }
    {
        &mut self.items
    }
}

/// Points of the grid.
#[derive(Debug, Drop)]
pub struct Points {
    items: Vec<Point>,
}

impl Model for Points {
    ghost use Rattle.std.specs.Prelude.{List};
    ghost use Rattle.act_grid.specs.declared.Point.{Point};

    ghost Value = { List Point };

    ghost view = { λ points. points.items.items };
}

impl Points {
    ghost use Rattle.std.specs.Prelude.{◌≡◌};
    ghost use Rattle.std.specs.Borrow.{Lends, sem};
    ghost use Rattle.std.specs.contracts.alloc.Global as global;
    ghost use Rattle.std.specs.contracts.vec.Vec as vec;
    ghost use Rattle.std.specs.contracts.impls.GlobalAllocator.TheImpl.{ghosts};
    ghost use Rattle.act_grid.specs.contracts.Point as point;
    ghost use Rattle.act_script.specs.contracts.lists.Points.{the_row};

    /// The list of these items. It takes constant time.
    pub fn from_vec(items: Vec<Point>) -> Points
        ensures { result ≡ items.items }
    {
        Points { items }
    }

    /// The items.
    pub fn into_vec(self) -> Vec<Point>
        ensures { result.items ≡ self }
    {
        self.items
    }

    pub fn as_slice(&self) -> &[Point]
        ensures { result.now ≡ self.now }
    {
        &self.items
    }

    /// The items, to be changed in place.
    pub fn vec_mut(&mut self) -> &mut Vec<Point>
        ensures* writes_back { sem 𝓛 (Lends the_row (vec.the_row point.the_row global.the_row ghosts) self.entry result (λ v. v.items)) }
        ensures shows { result.now.items ≡ self.old }
    {
        &mut self.items
    }
}
