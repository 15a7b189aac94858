//! Places in a node.

/// The entries of a node that a cell fills.
#[derive(Clone, Copy, Debug, PartialEq, Eq)]
pub struct Slot {
    /// The first of them, 0 to 255.
    pub first: u8,
    /// How many there are: 1, 4, 16, 64 or 256.
    pub count: u16,
}
