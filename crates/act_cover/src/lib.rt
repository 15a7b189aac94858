//! Coverings: the cells of one level that a shape may meet, as deep as a budget of cells allows.
//!
//! Level 0 has the root cell, or nothing where the shape is Outside on it. The next level keeps the Inside
//! cells and replaces each Mixed one by its children that aren't Outside. The level of a shape for a budget
//! is the greatest up to 28 such that each level from 0 to it has at most so many cells.
//!
//! The layers above use one contract: `covering` answers `covering_of` of the rings and the budget, whose
//! cells hold each point inside the shape, and whose Inside cells hold only such points. Who tells how the shape
//! lies on a cell is a parameter: a `Shape` does it from all its edges, and a caller that keeps more may do it
//! from fewer.
//!
//! ```text
//! let cells = covering(alloc, &shape, 64)?; // at most 64 cells, by ascending ids
//! cells.as_slice()[0].id()
//! ```
#![tactic(auto)]

mod cells;
mod classes;
mod coverings;
mod frontier;
mod held;
mod laws;
mod refine;
#[cfg(test)]
mod tests;

pub use cells::Cells;
pub use classes::Classes;
pub use coverings::{cover_level, covering, interior};
pub use laws::{covering_holds_the_inside, ids_ascend, interior_is_inside, level_is_the_greatest};
