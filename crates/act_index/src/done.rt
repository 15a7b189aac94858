//! What an update answers.

ghost use Rattle.std.specs.Prelude.{◌≡◌};
ghost use Rattle.act_index.specs.Calls.{cause_of};

use act_geom::Shape;
use act_super::Verdict;

/// An update that was made.
#[derive(Clone, Copy, Debug, PartialEq, Eq)]
pub struct Done {
    /// The version after it.
    pub version: u64,
    /// How many adds, drops and replaces the history then has.
    pub updates: u64,
    /// How many cells a training has trained, and 0 for any other update.
    pub split: u32,
}

/// Why an update was refused, by the first of these that holds: `Duplicate` or `Unknown`, `Same`, `Refs`, `Rows`,
/// `Versions`, `NoMemory`, `Held`. `NoMemory` may stand in place of any other.
#[derive(Clone, Copy, Debug, PartialEq, Eq)]
pub enum Refused {
    /// An added key stands already.
    Duplicate,
    /// A dropped or replaced key doesn't stand.
    Unknown,
    /// A replaced zone has that shape already.
    Same,
    /// Some leaf would have more than 510 references, where no cell is trained.
    Refs {
        /// The greatest number of references of a leaf.
        need: u32,
    },
    /// The index would take more rows than the settings have, where no cell is trained.
    Rows {
        /// The rows that it would take.
        need: u64,
        /// The rows of the settings.
        limit: u32,
    },
    /// The current version is the last one that there may be.
    Versions,
    /// A reader that may hold an old version keeps its rows from being used again.
    Held {
        /// The first reader with the least bound.
        reader: u32,
        /// That bound: the reader may hold this version.
        version: u64,
        /// The pin word of the reader that was found in this call.
        word: u64,
    },
    /// There was not memory enough.
    NoMemory,
}

/// An add or a replace that was refused, with the shape that was given.
#[derive(Drop)]
pub struct Turned {
    pub why: Refused,
    pub shape: Shape,
}

/// The cause that a verdict gives.
pub(crate) fn refused_by(why: Verdict) -> Refused
    ensures { result ≡ cause_of why }
{
    match why {
        Verdict::Duplicate => Refused::Duplicate,
        Verdict::Unknown => Refused::Unknown,
        Verdict::Same => Refused::Same,
        Verdict::Refs { need } => Refused::Refs { need },
        Verdict::Rows { need, limit } => Refused::Rows { need, limit },
        Verdict::NoMemory => Refused::NoMemory,
    }
}
