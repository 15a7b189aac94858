//! Places at which a test may hold up a thread.

use std::marker::Sync;

/// A place in the work of the updater or of a reader.
#[derive(Clone, Copy, Debug, PartialEq, Eq)]
pub enum Place {
    /// Before an update. The number is the version that is current then.
    Ready,
    /// After an update has published. The number is the version that is current then.
    Published,
    /// Before the first probe of a batch. The number is the version that was decided for the batch.
    Bound,
    /// After the last probe of a batch, with its version still held. The number is the reads of the batch.
    Probed,
}

/// What is called at each place. Its calls return, and no result depends on them.
pub trait Gate: Sync {
    /// The updater is number 0, and reader w is number w + 1.
    fn at(&self, who: u32, place: Place, number: u64);
}

/// The gate that holds nobody up.
#[derive(Clone, Copy, Debug, PartialEq, Eq)]
pub struct NoGate;

impl Gate for NoGate {
    fn at(&self, _who: u32, _place: Place, _number: u64) {}
}
