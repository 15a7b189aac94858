//! Pairs of points and zones.

ghost use Rattle.std.specs.Prelude.{◌≡◌};

use std::marker::Model;

/// A point by its place in a batch, from 0, and the key of a zone that it is inside.
#[derive(Clone, Copy, Debug, PartialEq, Eq)]
pub struct Pair {
    pub point: u32,
    pub key: u32,
}

/// A list of pairs. Contracts see it as the list.
#[derive(Debug, Drop)]
pub struct Pairs {
    pairs: Vec<Pair>,
}

impl Model for Pairs {
    ghost use Rattle.std.specs.Prelude.{List};
    ghost use Rattle.act_index.specs.declared.pairs.Pair.{Pair};

    ghost Value = { List Pair };

    ghost view = { λ p. p.pairs.items };
}

impl Pairs {
    ghost use Rattle.std.specs.Borrow.{sem};
    ghost use Rattle.act_index.specs.Lending.{LendsPairs};

    /// The pairs of the vector.
    pub fn from_vec(items: Vec<Pair>) -> Pairs
        ensures { result ≡ items.items }
    {
        Pairs { pairs: items }
    }

    /// The vector of the pairs.
    pub fn into_vec(self) -> Vec<Pair>
        ensures { result.items ≡ self }
    {
        self.pairs
    }

    /// The pairs, for reading.
    pub fn as_slice(&self) -> &[Pair]
        ensures { result.now ≡ self.now }
    {
        &self.pairs
    }

    /// The vector, for changes. The list is what is left in it.
    pub fn vec_mut(&mut self) -> &mut Vec<Pair>
        ensures* writes_back { sem 𝓛 (LendsPairs self.entry result) }
        ensures value { result.now.items ≡ self.old }
    {
        &mut self.pairs
    }
}
