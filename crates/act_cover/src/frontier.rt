//! The cells of one level, in an array.

use crate::held::Held;
use act_geom::Class;
use act_grid::Cell;
use std::marker::Model;

/// The most cells that a covering may have.
pub(crate) const MOST_CELLS: usize = 1024;

/// Up to `MOST_CELLS` cells in Z order. Contracts see them as a list.
#[derive(Drop)]
pub(crate) struct Frontier {
    held: [Held; MOST_CELLS],
    len: usize,
}

impl Model for Frontier {
    ghost use Rattle.std.specs.Prelude.{List, take, ◌≤◌};
    ghost use Rattle.act_cover.specs.declared.held.Held.{Held};

    ghost Value = { List Held };

    ghost view = { λ f. take f.len f.held };

    ghost invariant = { λ f. f.len ≤ 1024 };
}

impl Frontier {
    ghost use Rattle.std.specs.Prelude.{◌≡◌, ◌<◌, ◌++◌, [], ◌∷◌, length};

    pub fn new() -> Frontier
        ensures { result ≡ [] }
    {
        let blank = Held {
            cell: Cell::root(),
            class: Class::Outside,
        };
        Frontier {
            held: [blank; MOST_CELLS],
            len: 0,
        }
    }

    pub fn len(&self) -> usize
        ensures { result ≡ length self.now }
    {
        self.as_slice().len()
    }

    pub fn as_slice(&self) -> &[Held]
        ensures { result.now ≡ self.now }
    {
        &self.held[..self.len]
    }

    pub fn push(&mut self, held: Held)
        requires { length self.old < 1024 }
        ensures { self.new ≡ self.old ++ held ∷ [] }
    {
        self.held[self.len] = held;
        self.len += 1;
    }
}
