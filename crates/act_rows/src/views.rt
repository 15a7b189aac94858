//! What seats know. No value of these types is made. A clause reads an array as a list, of any length.

/// The image of a version. The word of a row at a place is the one at (row - 1) * 256 + place of `words`.
pub struct Snapshot {
    pub rows: [u64; 0],
    pub words: [u64; 0],
    pub firsts: [(u64, u64); 0],
}

/// A version: its root row and its image.
pub struct Version {
    pub root: u64,
    pub image: Snapshot,
}

/// What the writer knows.
pub struct Desk {
    /// How many readers there are, lent or not.
    pub pins: u64,
    /// How many rows an image has at most.
    pub rows: u64,
    /// The entries of the one history, each a list of numbers.
    pub history: [[u64; 0]; 0],
    /// Version v is the one at v.
    pub versions: [Version; 0],
    /// The row words.
    pub words: [u64; 0],
    /// The rows and places that were stored since the last publication.
    pub draft: [(u64, u64); 0],
    /// The bound of each reader that is lent.
    pub bounds: [Option<u64>; 0],
    /// The readers that were looked at, with the pin words that were loaded.
    pub looks: [(u64, u64); 0],
    /// What the reader that was given back last had seen.
    pub told: [[u64; 0]; 0],
}

/// How far a reader is.
pub enum Stage {
    Idle,
    /// It has loaded this version as a hint.
    Hinted(u64),
    /// It has stored one more than this version in its pin word.
    Pinned(u64),
    /// The history of the version that is held, and the version.
    Holding([[u64; 0]; 0], Version),
}

/// What a reader knows.
pub struct Ticket {
    pub number: u64,
    pub pins: u64,
    pub rows: u64,
    /// The history that it has seen.
    pub seen: [[u64; 0]; 0],
    /// What a note told, until the next step.
    pub told: [[u64; 0]; 0],
    /// The versions that its own steps decided.
    pub mine: [u64; 0],
    pub stage: Stage,
}

/// What a seat knows: the writer, a reader, a note, or a seat that was joined to another.
pub enum View {
    Writes(Desk),
    Reads(Ticket),
    Tells([[u64; 0]; 0]),
    Spent,
}
