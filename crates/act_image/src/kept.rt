//! The chains of a new image that keeps those of the zones that a change leaves.

ghost use Rattle.std.specs.Prelude.{◌≡◌, ◌≢◌, ◌<◌, ◌≤◌, ◌++◌, [], ◌∷◌, false, ℕ, IfOk, OnOk, List, Some, None, drop, length, map};
ghost use Rattle.act_grid.specs.declared.Point.{Point};
ghost use Rattle.act_super.specs.declared.entry.Zone.{Zone};
ghost use Rattle.act_super.specs.Sizes.{chain_rows};
ghost use Rattle.act_super.specs.States.{IsFor, changed, key_of, reshaped, shape_of, with_zone, without_key, zone_key_at};
ghost use Rattle.act_image.specs.Fresh.{is_changed};
ghost use Rattle.act_image.specs.Kept.{IsKeptChains, IsOldChains, of_first_body, old_chain};
ghost use Rattle.act_image.specs.Plans.{rows_from};

use crate::after::stands;
use crate::chains::{ChainPlace, ChainRow};
use crate::fits::fits;
use crate::slots::{Slot, push_kept, push_new};
use act_geom::{Shape, body_len};
use act_grid::NoMemory;
use act_super::{Next, Super};
use std::alloc::{AllocError, Global};

/// The words of a body in a row.
const BODY_WORDS: u64 = 255;

/// The chains of the zones of a new image, in their order: where each begins, which of their rows stay, and the new rows,
/// whose body is the only one at hand.
#[derive(Debug, Drop)]
pub(crate) struct KeptChains {
    pub places: Vec<ChainPlace>,
    pub slots: Vec<Slot>,
    // How many rows they have.
    pub count: u32,
    pub rows: Vec<ChainRow>,
}

/// The chains of an image: where each begins among the rows of chains, and all rows of the image, of which those of chains
/// stand from one on.
#[derive(Clone, Copy)]
pub(crate) struct OldChains<'a> {
    pub places: &'a [ChainPlace],
    pub rows: &'a [u32],
    pub from: usize,
}

/// The chains of all zones of the state after the change, in their order. It makes no body.
pub(crate) fn kept_chains(
    alloc: Global,
    state: &Super,
    next: &Next,
    old: OldChains,
) -> Result<KeptChains, NoMemory>
    requires prepared { IsFor state.now.settings state.now.state next.now }
    requires old { IsOldChains state.now.state.zones old.places.now old.rows.now old.from }
    ensures { IfOk result (λ c. (shape : List (List Point)) → ((own : List (List Point)) → shape_of next.now.entry ≡ Some own → own ≡ shape) → IsKeptChains (old_chain old.entry.places.now old.entry.rows.now old.entry.from) next.now.entry shape (changed state.now.state.zones next.now.entry) c) }
{
    let Some(key) = next.key() else {
        let mut chains = KeptChains::new(alloc);
        chains.keep_rest(state, next, old, 0)?;
        return Ok(chains);
    };
    let Some(shape) = next.shape() else {
        let chains = kept_without(alloc, state, next, old, key)?;
        return Ok(chains);
    };
    if stands(state, key) {
        let chains = kept_reshaped(alloc, state, next, old, key, shape)?;
        return Ok(chains);
    }
    let chains = kept_with(alloc, state, next, old, key, shape)?;
    Ok(chains)
}

fn kept_without(
    alloc: Global,
    state: &Super,
    next: &Next,
    old: OldChains,
    key: u32,
) -> Result<KeptChains, NoMemory>
    requires key { key_of next.now.entry ≡ Some key }
    requires old { IsOldChains state.now.state.zones old.places.now old.rows.now old.from }
    ensures { IfOk result (λ c. (shape : List (List Point)) → IsKeptChains (old_chain old.entry.places.now old.entry.rows.now old.entry.from) next.now.entry shape (without_key key state.now.state.zones) c) }
{
    let mut chains = KeptChains::new(alloc);
    for i in 0..state.zones() {
        if state.zone_key(i) != key {
            chains.keep(state, old, i)?;
        }
    }
    Ok(chains)
}

fn kept_reshaped(
    alloc: Global,
    state: &Super,
    next: &Next,
    old: OldChains,
    key: u32,
    shape: &Shape,
) -> Result<KeptChains, NoMemory>
    requires key { key_of next.now.entry ≡ Some key }
    requires old { IsOldChains state.now.state.zones old.places.now old.rows.now old.from }
    ensures { IfOk result (IsKeptChains (old_chain old.entry.places.now old.entry.rows.now old.entry.from) next.now.entry shape.now (reshaped key shape.now state.now.state.zones)) }
{
    let mut chains = KeptChains::new(alloc);
    for i in 0..state.zones() {
        if state.zone_key(i) == key {
            chains.put(key, shape)?;
        } else {
            chains.keep(state, old, i)?;
        }
    }
    Ok(chains)
}

fn kept_with(
    alloc: Global,
    state: &Super,
    next: &Next,
    old: OldChains,
    key: u32,
    shape: &Shape,
) -> Result<KeptChains, NoMemory>
    requires key { key_of next.now.entry ≡ Some key }
    requires old { IsOldChains state.now.state.zones old.places.now old.rows.now old.from }
    requires free { (i : ℕ) → i < length state.now.state.zones → is_changed next.now.entry (zone_key_at state.now.state.zones i) ≡ false }
    ensures { IfOk result (IsKeptChains (old_chain old.entry.places.now old.entry.rows.now old.entry.from) next.now.entry shape.now (with_zone (record { key = key; shape = shape.now }) state.now.state.zones)) }
{
    let mut chains = KeptChains::new(alloc);
    let mut i = 0;
    while i < state.zones() && state.zone_key(i) <= key {
        chains.keep(state, old, i)?;
        i += 1;
    }
    chains.put(key, shape)?;
    chains.keep_rest(state, next, old, i)?;
    Ok(chains)
}

// Puts the rows of a chain, whose body is the only one at hand.
fn push_own(rows: &mut Vec<ChainRow>, chain: u32, count: u32) -> Result<(), AllocError>
    ensures { OnOk result (rows.new.items ≡ rows.old.items ++ map of_first_body (rows_from chain 0 count)) }
{
    for row in 0..count {
        rows.push(ChainRow {
            chain,
            body: 0,
            row,
        })?;
    }
    Ok(())
}

impl KeptChains {
    ghost use Rattle.std.specs.Prelude.{◌≡◌, ◌<◌, ◌≤◌, ◌++◌, [], ◌∷◌, ℕ, true, false, List, OnOk, drop, length};
    ghost use Rattle.act_grid.specs.declared.Point.{Point};
    ghost use Rattle.act_super.specs.declared.entry.Entry.{Entry};
    ghost use Rattle.act_super.specs.declared.entry.Zone.{Zone};
    ghost use Rattle.act_super.specs.States.{zone_key_at, zone_shape_at};
    ghost use Rattle.act_image.specs.Fresh.{is_changed};
    ghost use Rattle.act_image.specs.Kept.{IsKeptChains, IsOldChains, old_chain};

    // No chains.
    fn new(alloc: Global) -> KeptChains
        ensures { (chain : ℕ → List ℕ) (e : Entry) (shape : List (List Point)) → IsKeptChains chain e shape [] result }
    {
        KeptChains {
            places: Vec::new(alloc),
            slots: Vec::new(alloc),
            count: 0,
            rows: Vec::new(alloc),
        }
    }

    // Keeps the chain of a zone.
    fn keep(&mut self, state: &Super, old: OldChains, i: u32) -> Result<(), NoMemory>
        requires old { IsOldChains state.now.state.zones old.places.now old.rows.now old.from }
        requires within { i < length state.now.state.zones }
        ensures { OnOk result ((e : Entry) (shape : List (List Point)) (zones : List Zone) → is_changed e (zone_key_at state.now.state.zones i) ≡ false → IsKeptChains (old_chain old.entry.places.now old.entry.rows.now old.entry.from) e shape zones self.old → IsKeptChains (old_chain old.entry.places.now old.entry.rows.now old.entry.from) e shape (zones ++ record { key = zone_key_at state.now.state.zones i; shape = zone_shape_at state.now.state.zones i } ∷ []) self.new) }
    {
        let place = old.places[i as usize];
        let first = old.from + place.first as usize;
        let end = first + place.count as usize;
        let count = old.rows.len();
        prove!(end <= count);
        let rows = &old.rows[first..end];
        self.places.push(ChainPlace {
            key: place.key,
            first: self.count,
            count: place.count,
        })?;
        push_kept(&mut self.slots, rows)?;
        self.count = fits(self.count as usize + place.count as usize)?;
        Ok(())
    }

    // Puts the chain of the changed zone.
    fn put(&mut self, key: u32, shape: &Shape) -> Result<(), NoMemory>
        ensures { OnOk result ((chain : ℕ → List ℕ) (e : Entry) (zones : List Zone) → is_changed e key ≡ true → IsKeptChains chain e shape.now zones self.old → IsKeptChains chain e shape.now (zones ++ record { key = key; shape = shape.now } ∷ []) self.new) }
    {
        let chain = fits(self.places.len())?;
        let words = u64::from(body_len(shape));
        let count = ((words + (BODY_WORDS - 1)) / BODY_WORDS) as u32;
        self.places.push(ChainPlace {
            key,
            first: self.count,
            count,
        })?;
        push_new(&mut self.slots, count)?;
        push_own(&mut self.rows, chain, count)?;
        self.count = fits(self.count as usize + count as usize)?;
        Ok(())
    }

    // Keeps the chains of the zones from a place on.
    fn keep_rest(
        &mut self,
        state: &Super,
        next: &Next,
        old: OldChains,
        from: u32,
    ) -> Result<(), NoMemory>
        requires old { IsOldChains state.now.state.zones old.places.now old.rows.now old.from }
        requires from { from ≤ length state.now.state.zones }
        requires free { (i : ℕ) → i < length state.now.state.zones → is_changed next.now.entry (zone_key_at state.now.state.zones i) ≡ false }
        ensures { OnOk result ((shape : List (List Point)) (zones : List Zone) → IsKeptChains (old_chain old.entry.places.now old.entry.rows.now old.entry.from) next.now.entry shape zones self.old → IsKeptChains (old_chain old.entry.places.now old.entry.rows.now old.entry.from) next.now.entry shape (zones ++ drop from state.now.state.zones) self.new) }
    {
        for i in from..state.zones() {
            self.keep(state, old, i)?;
        }
        Ok(())
    }
}
