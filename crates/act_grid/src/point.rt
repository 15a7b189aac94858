//! Points of the grid.

/// A point of the grid, in grid units.
#[derive(Clone, Copy, Debug, PartialEq, Eq)]
pub struct Point {
    /// East is greater.
    pub x: i32,
    /// North is greater.
    pub y: i32,
}
