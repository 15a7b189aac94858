//! Coverings worked out by hand, and the list type.

use crate::{Cells, cover_level, covering, interior};
use act_geom::Shape;
use act_grid::{Cell, Point};
use std::alloc::Global;
use std::test::Fail;

// The square of this side whose low corner is the point (0, 0).
fn square(alloc: Global, side: i32) -> Result<Shape, Fail> {
    let mut shape = Shape::new(alloc);
    let at = |x, y| Point { x, y };
    shape.push_ring(&[at(0, 0), at(side, 0), at(side, side), at(0, side)])?;
    Ok(shape)
}

// The side, the budget, the level, and how many cells the covering and the interior have.
#[test]
fn squares_are_covered(rt: HostRuntime) -> Result<(), Fail> {
    let alloc = rt.alloc();
    for (side, cells, level, all, inside) in [
        (64, 64, 28, 22, 6),
        (64, 9, 27, 9, 1),
        (64, 8, 26, 4, 0),
        (10, 64, 28, 1, 0),
    ] {
        let shape = square(alloc, side)?;
        assert_eq!(rt; cover_level(&shape, cells), level, "{side} by {cells}");
        let found = covering(alloc, &shape, cells)?;
        assert_eq!(rt; found.as_slice().len(), all, "{side} by {cells}");
        let found = interior(alloc, &shape, cells)?;
        assert_eq!(rt; found.as_slice().len(), inside, "{side} by {cells}");
    }
    Ok(())
}

#[test]
fn a_small_square_has_one_cell(rt: HostRuntime) -> Result<(), Fail> {
    let alloc = rt.alloc();
    let cells = covering(alloc, &square(alloc, 10)?, 64)?.into_vec();
    assert_eq!(rt; cells.len(), 1);
    let cell = cells.first().ok_or("no cell")?;
    assert_eq!(rt; cell.id(), 1_729_382_256_910_270_480);
    Ok(())
}

#[test]
fn no_rings_have_no_cells(rt: HostRuntime) -> Result<(), Fail> {
    let shape = Shape::new(rt.alloc());
    assert_eq!(rt; cover_level(&shape, 1), 28);
    assert_eq!(rt; covering(rt.alloc(), &shape, 1)?.as_slice().len(), 0);
    Ok(())
}

#[test]
fn lists_lend_their_vector(rt: HostRuntime) -> Result<(), Fail> {
    let mut cells = Cells::from_vec(Vec::new(rt.alloc()));
    cells.vec_mut().push(Cell::root())?;
    assert_eq!(rt; cells.as_slice().len(), 1);
    assert_eq!(rt; cells.into_vec().pop(), Some(Cell::root()));
    Ok(())
}
