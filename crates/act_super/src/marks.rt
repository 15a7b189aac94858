//! Trained cells.

ghost use Rattle.std.specs.Prelude.{◌≡◌, ◌<◌, ◌≤◌, ℕ, length, slice_index};
ghost use Rattle.std.specs.List.Sorted.{IsNonDecreasing};
ghost use Rattle.act_grid.specs.Cell.{IsCell, id_of};
ghost use Rattle.act_super.specs.Places.{IsPlaceOf};

use act_grid::Cell;
use std::alloc::{AllocError, Global};
use std::marker::Model;

/// Cells in a given order, as the trained ones in the order of their training, looked up by their ids. Contracts see the list.
#[derive(Drop)]
pub struct Marks {
    cells: Vec<Cell>,
    // The ids of the cells in ascending order.
    ids: Vec<u64>,
}

impl Model for Marks {
    ghost use Rattle.std.specs.Prelude.{List};
    ghost use Rattle.act_grid.specs.Cell.{Address};
    ghost use Rattle.act_super.specs.Marked.{IsIndexed};

    ghost Value = { List Address };

    ghost view = { λ m. m.cells.items };

    ghost invariant = { λ m. IsIndexed m.cells.items m.ids.items };
}

impl Marks {
    ghost use Rattle.std.specs.Prelude.{◌≡◌, [], IfOk};
    ghost use Rattle.act_super.specs.Grounds.{is_among};
    ghost use Rattle.act_super.specs.Shifts.{added};

    /// No cells. It takes no memory.
    pub fn new(alloc: Global) -> Marks
        ensures { result ≡ [] }
    {
        Marks {
            cells: Vec::new(alloc),
            ids: Vec::new(alloc),
        }
    }

    /// These cells. It takes memory where there are some, and sorts their ids.
    pub fn of(alloc: Global, cells: &[Cell]) -> Result<Marks, AllocError>
        ensures { IfOk result (λ marks. marks ≡ cells.now) }
    {
        let mut all = Vec::with_capacity(alloc, cells.len())?;
        let mut ids = Vec::with_capacity(alloc, cells.len())?;
        for cell in cells {
            let id = id_in(*cell);
            all.push(*cell)?;
            ids.push(id)?;
        }
        ids.sort()?;
        Ok(Marks { cells: all, ids })
    }

    /// One more cell behind the others. It moves the ids behind its own, and takes memory where there is no room left.
    pub fn push(&mut self, cell: Cell) -> Result<(), AllocError>
        ensures { IfOk result (λ done. self.new ≡ added self.old cell) }
    {
        self.cells.reserve(1)?;
        self.ids.reserve(1)?;
        let id = id_in(cell);
        let at = spot_in(&self.ids, id);
        let Ok(()) = self.cells.push(cell) else {
            unreachable!()
        };
        let Ok(()) = self.ids.insert(at, id) else {
            unreachable!()
        };
        Ok(())
    }

    /// The cells, for reading.
    pub fn as_slice(&self) -> &[Cell]
        ensures { result.now ≡ self.now }
    {
        &self.cells
    }

    /// Whether the cell is one of them. Where there are some, it takes time logarithmic in their number.
    pub fn has(&self, cell: Cell) -> bool
        ensures { result ≡ is_among self.now cell }
    {
        let ids = self.ids.as_slice();
        if ids.is_empty() {
            return false;
        }
        match place_in(ids, id_in(cell)) {
            Ok(_) => true,
            Err(_) => false,
        }
    }
}

// The place of the id, or else the place where it would stand.
fn place_in(ids: &[u64], id: u64) -> Result<usize, usize>
    requires { IsNonDecreasing ids.now }
    ensures { IsPlaceOf id ids.now result }
{
    ids.binary_search(&id)
}

// A place where the id may stand.
fn spot_in(ids: &[u64], id: u64) -> usize
    requires { IsNonDecreasing ids.now }
    ensures within { result ≤ length ids.now }
    ensures below { (k : ℕ) → k < result → slice_index ids.now k ≤ id }
    ensures above { (k : ℕ) → result ≤ k → k < length ids.now → id ≤ slice_index ids.now k }
{
    match place_in(ids, id) {
        Ok(at) => at,
        Err(at) => at,
    }
}

// The id of the cell.
#[inline]
fn id_in(cell: Cell) -> u64
    ensures is { result ≡ id_of cell }
    ensures cell { IsCell cell }
{
    let _level = cell.level();
    cell.id()
}
