//! A cell and its class.

use act_geom::Class;
use act_grid::Cell;

/// A cell with the class of a shape on it.
#[derive(Clone, Copy, Debug, PartialEq, Eq)]
pub(crate) struct Held {
    pub cell: Cell,
    pub class: Class,
}
