//! Trie nodes and their rows.

use act_grid::Cell;

/// A node: its cell, and which of the list rows are its own.
#[derive(Clone, Copy, Debug)]
pub(crate) struct NodePlace {
    pub cell: Cell,
    pub first: u32,
    pub count: u32,
}
