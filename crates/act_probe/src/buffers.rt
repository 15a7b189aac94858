//! What a reader keeps from batch to batch.

ghost use Rattle.std.specs.Prelude.{◌≡◌, []};

use crate::group::Way;
use act_entry::Ref;
use act_grid::Point;
use std::alloc::Global;

/// A point by its place in its batch, and the key of a zone that it is inside.
#[derive(Clone, Copy, Debug, PartialEq, Eq)]
pub struct Hit {
    pub point: u32,
    pub key: u32,
}

/// A point that is still to be tested in a zone.
#[derive(Clone, Copy, Debug, PartialEq, Eq)]
pub(crate) struct Candidate {
    /// The first row of the zone's chain, and the one after it.
    pub row: u32,
    pub next: u32,
    /// Where the pair of the point with the zone stands among the pairs.
    pub slot: u32,
    pub point: Point,
    /// An odd number of the zone's edges counts for the point.
    pub odd: bool,
}

/// A reference of the leaf of a point.
#[derive(Clone, Copy, Debug, PartialEq, Eq)]
pub(crate) struct Named {
    pub r: Ref,
    /// The first word of the zone's chain, once it was read.
    pub head: u64,
    /// The place of the point in its batch.
    pub place: u32,
    pub point: Point,
}

/// The pairs of points with the zones that meet their leaves.
#[derive(Drop)]
pub(crate) struct Found {
    pub hits: Vec<Hit>,
    /// Whether the pair at the same place is one of the answer.
    pub kept: Vec<bool>,
    pub candidates: Vec<Candidate>,
    /// What brings the candidates into their order.
    pub keys: Vec<u64>,
    pub dealt: Vec<u64>,
    pub spare: Vec<Candidate>,
    /// How many words were read.
    pub reads: u64,
}

/// Buffers for batches, kept from batch to batch so that they are grown once.
#[derive(Drop)]
pub struct Buffers {
    pub(crate) ways: Vec<Way>,
    pub(crate) named: Vec<Named>,
    pub(crate) found: Found,
}

impl Buffers {
    /// Empty buffers, which take no memory yet.
    pub fn new(alloc: Global) -> Buffers
        ensures hits { result.found.hits.items ≡ [] }
        ensures reads { result.found.reads ≡ 0 }
    {
        let found = Found {
            hits: Vec::new(alloc),
            kept: Vec::new(alloc),
            candidates: Vec::new(alloc),
            keys: Vec::new(alloc),
            dealt: Vec::new(alloc),
            spare: Vec::new(alloc),
            reads: 0,
        };
        Buffers {
            ways: Vec::new(alloc),
            named: Vec::new(alloc),
            found,
        }
    }

    /// The pairs of the last batch, by points and then by the order of the zones.
    pub fn hits(&self) -> &[Hit]
        ensures { result.now ≡ self.now.found.hits.items }
    {
        &self.found.hits
    }

    /// How many words were read for the last batch.
    pub fn reads(&self) -> u64
        ensures { result ≡ self.now.found.reads }
    {
        self.found.reads
    }
}
