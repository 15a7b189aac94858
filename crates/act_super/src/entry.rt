//! What states and entries are. No value is made of these types: contracts read an array in them as a list of any length.

use act_geom::Shape;
use act_grid::Cell;

/// A polygon under its key.
pub struct Zone {
    pub key: u32,
    pub shape: Shape,
}

/// The zones by ascending key, and the trained cells.
pub struct State {
    pub zones: [Zone; 0],
    pub trained: [Cell; 0],
}

/// An accepted update.
pub enum Entry {
    /// A zone comes.
    Add(u32, Shape),
    /// A zone goes.
    DropZone(u32),
    /// A zone gets another shape.
    Replace(u32, Shape),
    /// Cells are trained.
    Train([Cell; 0]),
}
