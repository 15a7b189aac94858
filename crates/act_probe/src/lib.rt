//! Which zones hold a point, read from the words of an image alone.
//!
//! The way down goes from the root node to the entry of the leaf that holds the point, one word a node.
//! The entry gives the leaf's references. A true hit needs no test. Any other reference is a candidate,
//! whose polygon is walked word by word along its chain.
//!
//! The layer above uses one contract: over words that stand for a state, `probe` gives exactly the
//! ascending keys of the zones of the layers that the point is inside, within `reads_of` words.
//!
//! `probe_batch` answers many points together, with the pairs of the join: they go down in groups, and
//! the polygon of a zone is read once for all its candidates.
//!
//! ```text
//! let reads = probe(&mut words, root, p, Layers::all(), &mut keys, &mut steps);
//! ```
#![tactic(auto)]

mod batch;
mod buffers;
mod chain;
mod deal;
mod descent;
mod group;
mod keys;
mod list;
mod meet;
mod names;
mod order;
mod point;
mod refs;
mod settle;
mod sweep;
#[cfg(test)]
mod tests;
mod trace;
mod words;
mod zones;

pub use batch::probe_batch;
pub use buffers::{Buffers, Hit};
pub use keys::Keys;
pub use point::probe;
pub use words::Words;
