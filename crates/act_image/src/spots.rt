//! The entries of nodes.

use act_entry::Entry;
use std::marker::Model;

/// So many entries of a node from the first one on. The rows in the entry are where its child node, its list row or its
/// chains stand among the rows of their kind.
#[derive(Clone, Copy, Debug, PartialEq, Eq)]
pub(crate) struct Spot {
    pub first: u8,
    pub count: u16,
    pub entry: Entry,
}

/// The entries of a node. Contracts see the list.
#[derive(Debug, Drop)]
pub(crate) struct Spots {
    spots: Vec<Spot>,
}

impl Model for Spots {
    ghost use Rattle.std.specs.Prelude.{List};
    ghost use Rattle.act_image.specs.declared.spots.Spot.{Spot};

    ghost Value = { List Spot };

    ghost view = { λ s. s.spots.items };
}

impl Spots {
    ghost use Rattle.std.specs.Prelude.{◌≡◌};
    ghost use Rattle.act_image.specs.Words.{entry_in};

    /// The entries of the vector.
    pub fn from_vec(spots: Vec<Spot>) -> Spots
        ensures { result ≡ spots.items }
    {
        Spots { spots }
    }

    /// An entry of the node: that of the first spot that fills it.
    pub fn entry(&self, i: u8) -> Entry
        ensures { result ≡ entry_in self.now i }
    {
        for spot in &self.spots {
            if spot.first <= i && u32::from(i) < u32::from(spot.first) + u32::from(spot.count) {
                return spot.entry;
            }
        }
        Entry::Empty
    }
}
