//! Chains of polygon rows.

ghost use Rattle.std.specs.Prelude.{◌≡◌, ◌+◌, ◌++◌, [], ◌∷◌, List, IfOk, OnOk, Some, slice_index_or};
ghost use Rattle.act_grid.specs.declared.Point.{Point};
ghost use Rattle.act_geom.specs.Body.{body_of};
ghost use Rattle.act_super.specs.declared.entry.Zone.{Zone};
ghost use Rattle.act_super.specs.States.{shape_of};
ghost use Rattle.act_image.specs.Plans.{IsChains, place_first, rows_from};

use crate::fits::fits;
use act_geom::{Shape, body_len, body_word};
use act_grid::NoMemory;
use act_super::Next;
use std::alloc::{AllocError, Global};
use std::marker::Model;

/// The words of a body in a row; the first word of the row tells the next one.
const BODY_WORDS: usize = 255;

/// The chain of a zone: which of the chain rows are its own.
#[derive(Clone, Copy, Debug, PartialEq, Eq)]
pub(crate) struct ChainPlace {
    pub key: u32,
    pub first: u32,
    pub count: u32,
}

/// A chain row: whose it is, counted from 0, which of the bodies at hand is its own, and which row of that chain it is.
#[derive(Clone, Copy, Debug, PartialEq, Eq)]
pub(crate) struct ChainRow {
    pub chain: u32,
    pub body: u32,
    pub row: u32,
}

/// The words of a zone's body. Contracts see the list.
#[derive(Debug, Drop)]
pub(crate) struct Body {
    words: Vec<u64>,
}

impl Model for Body {
    ghost use Rattle.std.specs.Prelude.{ℕ, List};

    ghost Value = { List ℕ };

    ghost view = { λ b. b.words.items };
}

impl Body {
    ghost use Rattle.std.specs.Prelude.{◌≡◌, slice_index};

    /// The words of the vector.
    pub fn from_vec(words: Vec<u64>) -> Body
        ensures { result ≡ words.items }
    {
        Body { words }
    }

    /// A word, and 0 behind the last one.
    pub fn word(&self, k: usize) -> u64
        ensures { result ≡ slice_index self.now k }
    {
        if k < self.words.len() {
            self.words[k]
        } else {
            0
        }
    }
}

/// The chains of zones, in the order of the zones.
#[derive(Debug, Drop)]
pub(crate) struct Chains {
    pub places: Vec<ChainPlace>,
    pub bodies: Vec<Body>,
    pub rows: Vec<ChainRow>,
}

impl Chains {
    /// No chains.
    pub fn new(alloc: Global) -> Chains
        ensures { IsChains [] result }
    {
        Chains {
            places: Vec::new(alloc),
            bodies: Vec::new(alloc),
            rows: Vec::new(alloc),
        }
    }

    /// Puts the chain of one more zone.
    pub fn push(&mut self, alloc: Global, key: u32, shape: &Shape) -> Result<(), NoMemory>
        ensures { OnOk result ((zones : List Zone) → IsChains zones self.old → IsChains (zones ++ record { key = key; shape = shape.now } ∷ []) self.new) }
    {
        let chain = fits(self.places.len())?;
        let first = fits(self.rows.len())?;
        let words = body_words(alloc, shape)?;
        let count = fits((words.len() + BODY_WORDS - 1) / BODY_WORDS)?;
        push_rows(&mut self.rows, chain, count)?;
        self.places.push(ChainPlace { key, first, count })?;
        self.bodies.push(Body::from_vec(words))?;
        Ok(())
    }

    /// Where the chain of a zone begins among the rows of all chains. It looks at the keys one by one.
    pub fn first(&self, key: u32) -> u32
        ensures { result ≡ place_first self.now.places.items key }
    {
        for place in &self.places {
            if place.key == key {
                return place.first;
            }
        }
        0
    }
}

/// The body of the zone that the change puts, and none where it puts none.
pub(crate) fn changed_bodies(alloc: Global, next: &Next) -> Result<Vec<Body>, NoMemory>
    ensures { IfOk result (λ bodies. (shape : List (List Point)) → shape_of next.now.entry ≡ Some shape → slice_index_or bodies.items 0 [] ≡ body_of shape) }
{
    let mut bodies = Vec::new(alloc);
    let Some(shape) = next.shape() else {
        return Ok(bodies);
    };
    let words = body_words(alloc, shape)?;
    bodies.push(Body::from_vec(words))?;
    Ok(bodies)
}

// The words of a shape's body.
fn body_words(alloc: Global, shape: &Shape) -> Result<Vec<u64>, AllocError>
    ensures { IfOk result (λ words. words.items ≡ body_of shape.now) }
{
    let len = body_len(shape);
    let mut words = Vec::with_capacity(alloc, len as usize)?;
    for k in 0..len {
        words.push(body_word(shape, k))?;
    }
    Ok(words)
}

// Puts the rows of one more chain, whose body stands where the chain does.
fn push_rows(rows: &mut Vec<ChainRow>, chain: u32, count: u32) -> Result<(), AllocError>
    ensures { OnOk result (rows.new.items ≡ rows.old.items ++ rows_from chain 0 count) }
{
    for row in 0..count {
        rows.push(ChainRow {
            chain,
            body: chain,
            row,
        })?;
    }
    Ok(())
}
