//! Where chains begin.

ghost use Rattle.std.specs.Prelude.{◌≡◌, ◌≤◌, true, length};
ghost use Rattle.act_image.specs.Plans.{place_first};
ghost use Rattle.act_image.specs.Firsts.{IsRising};

use crate::chains::ChainPlace;
use std::marker::Model;

/// The chains of zones, and whether each key is above the one before. Contracts see the chains.
#[derive(Drop)]
pub(crate) struct Firsts<'a> {
    places: &'a [ChainPlace],
    rising: bool,
}

impl<'a> Model for Firsts<'a> {
    ghost use Rattle.std.specs.Prelude.{◌≡◌, true, List};
    ghost use Rattle.act_image.specs.declared.chains.ChainPlace.{ChainPlace};
    ghost use Rattle.act_image.specs.Firsts.{IsRising};

    ghost Value = { List ChainPlace };

    ghost view = { λ f. f.places.now };

    ghost invariant = { λ f. f.rising ≡ true → IsRising f.places.now };
}

// Whether each key is above the one before.
fn are_rising(places: &[ChainPlace]) -> bool
    ensures { result ≡ true → IsRising places.now }
{
    for i in 1..places.len() {
        if places[i - 1].key >= places[i].key {
            return false;
        }
    }
    true
}

// Where a key stands among keys of which each is above the one before. It halves them at each step.
fn guess(places: &[ChainPlace], key: u32) -> usize
    ensures { result ≤ length places.now }
{
    let mut low = 0;
    let mut high = places.len();
    while low < high {
        let middle = low + (high - low) / 2;
        if places[middle].key < key {
            low = middle + 1;
        } else {
            high = middle;
        }
    }
    low
}

impl<'a> Firsts<'a> {
    ghost use Rattle.std.specs.Prelude.{◌≡◌};
    ghost use Rattle.act_image.specs.Plans.{place_first};

    /// The chains, whose keys it looks at once.
    pub fn new(places: &'a [ChainPlace]) -> Firsts<'a>
        ensures { result ≡ places.now }
    {
        Firsts {
            places,
            rising: are_rising(places),
        }
    }

    /// Where the chain of a zone begins among the rows of all chains. It takes as many steps as a search by halves if the
    /// keys rise and the key is one of them, and looks at all of them otherwise.
    pub fn of(&self, key: u32) -> u32
        ensures { result ≡ place_first self.now key }
    {
        let places = self.places;
        if self.rising {
            let likely = guess(places, key);
            if likely < places.len() && places[likely].key == key {
                return places[likely].first;
            }
        }
        for place in places {
            if place.key == key {
                return place.first;
            }
        }
        0
    }
}
