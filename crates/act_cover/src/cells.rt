//! Lists of cells.

use act_grid::Cell;
use std::marker::Model;

/// A list of cells. Contracts see it as the list.
#[derive(Debug, Drop)]
pub struct Cells {
    cells: Vec<Cell>,
}

impl Model for Cells {
    ghost use Rattle.std.specs.Prelude.{List};
    ghost use Rattle.act_grid.specs.Cell.{Address};

    ghost Value = { List Address };

    ghost view = { λ c. c.cells.items };
}

impl Cells {
    ghost use Rattle.std.specs.Prelude.{◌≡◌};
    ghost use Rattle.std.specs.Borrow.{sem};
    ghost use Rattle.act_cover.specs.Lending.{LendsItems};

    /// The cells of the vector.
    pub fn from_vec(items: Vec<Cell>) -> Cells
        ensures { result ≡ items.items }
    {
        Cells { cells: items }
    }

    /// The vector of the cells.
    pub fn into_vec(self) -> Vec<Cell>
        ensures { result.items ≡ self }
    {
        self.cells
    }

    /// The cells, for reading.
    pub fn as_slice(&self) -> &[Cell]
        ensures { result.now ≡ self.now }
    {
        &self.cells
    }

    /// The vector, for changes. The list is what is left in it.
    pub fn vec_mut(&mut self) -> &mut Vec<Cell>
        ensures* writes_back { sem 𝓛 (LendsItems self.entry result) }
        ensures value { result.now.items ≡ self.old }
    {
        &mut self.cells
    }
}
