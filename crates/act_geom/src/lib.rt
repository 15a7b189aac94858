//! Shapes of the grid: whether a point is inside, how a shape lies on a cell, and its words in rows.
//!
//! A shape is a list of rings. An edge counts for a point when it crosses the point's row on the
//! point's right, and a point is inside where an odd number of edges counts. Whole numbers are exact,
//! so a point of a common border lies in one of two neighbours: a point on a left or lower border is
//! inside, one on a right or upper border is outside. Holes and parts follow from counting alone.
//!
//! The layers above use two contracts: `inside` answers `is_inside` of the shape's rings, and where
//! no edge touches a cell, `is_inside` has one answer on all its points.
//!
//! ```text
//! let mut shape = Shape::new(alloc);
//! shape.push_ring(&[Point { x: 0, y: 0 }, Point { x: 10, y: 0 }, Point { x: 0, y: 10 }])?;
//! inside(&shape, Point { x: 1, y: 1 }) // true
//! class_of(&shape, Cell::leaf(Point { x: 100, y: 0 })) // Class::Outside
//! ```
#![tactic(auto)]

mod body;
#[cfg(test)]
mod cell_tests;
mod class;
mod edge;
mod laws;
mod location;
mod shape;
#[cfg(test)]
mod tests;
mod touch;
mod walk;

pub use body::{body_len, body_word};
pub use class::{Class, class_of};
pub use edge::edge_counts;
pub use laws::{
    class_answers_for_points, class_goes_down, pure_cell_has_one_answer, touching_goes_up,
};
pub use location::inside;
pub use shape::{MOST_VERTICES, PushFault, Shape};
pub use touch::{hull_touches, touches};
pub use walk::{Walk, inside_body};
