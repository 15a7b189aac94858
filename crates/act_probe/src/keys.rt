//! Keys of zones.

use std::marker::Model;

/// The greatest number of keys: as many as a leaf may have references.
pub const MOST_KEYS: usize = 510;

/// Up to 510 keys, in places that are taken once. Clearing it costs nothing.
#[derive(Drop)]
pub struct Keys {
    items: [u32; MOST_KEYS],
    len: usize,
}

impl Model for Keys {
    ghost use Rattle.std.specs.Prelude.{ℕ, List, take, ◌≤◌};

    ghost Value = { List ℕ };

    ghost view = { λ keys. take keys.len keys.items };

    ghost invariant = { λ keys. keys.len ≤ 510 };
}

impl Keys {
    ghost use Rattle.std.specs.Prelude.{◌≡◌, ◌<◌, ◌≤◌, [], ◌∷◌, ◌++◌, length, slice_index};

    /// No keys.
    pub fn new() -> Keys
        ensures { result ≡ [] }
    {
        Keys {
            items: [0; MOST_KEYS],
            len: 0,
        }
    }

    /// How many keys there are.
    pub fn len(&self) -> u32
        ensures len { result ≡ length self.now }
        ensures most { result ≤ 510 }
    {
        self.len as u32
    }

    /// The key at a place.
    pub fn get(&self, i: u32) -> u32
        requires { i < length self.now }
        ensures { result ≡ slice_index self.now i }
    {
        self.items[i as usize]
    }

    /// Lets go of all keys.
    pub(crate) fn clear(&mut self)
        ensures { self.new ≡ [] }
    {
        self.len = 0;
    }

    /// Puts a key behind the others.
    pub(crate) fn push(&mut self, key: u32)
        requires { length self.old < 510 }
        ensures { self.new ≡ self.old ++ key ∷ [] }
    {
        self.items[self.len] = key;
        self.len += 1;
    }
}
