//! Why an update is turned away.

use act_geom::Shape;

/// Why an update is turned away.
#[derive(Clone, Copy, Debug, PartialEq, Eq)]
pub enum Verdict {
    /// An added key stands already.
    Duplicate,
    /// A dropped or replaced key doesn't stand.
    Unknown,
    /// A replaced zone has that shape already.
    Same,
    /// Some leaf would have more than 510 references, where no cell is trained.
    Refs {
        /// The greatest number of references of a leaf.
        need: u32,
    },
    /// The index would take more rows than the settings have, where no cell is trained.
    Rows {
        /// The rows that it would take.
        need: u64,
        /// The rows of the settings.
        limit: u32,
    },
    /// There was not memory enough.
    NoMemory,
}

/// An add or a replace that was turned away, with the shape that was given.
#[derive(Drop)]
pub struct TurnedAdd {
    pub why: Verdict,
    pub shape: Shape,
}
