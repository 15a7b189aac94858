//! The chains of the zones after a prepared change.

ghost use Rattle.std.specs.Prelude.{◌≡◌, ℕ, ◌<◌, ◌≤◌, ◌^◌, ◌++◌, IfOk, OnOk, List, Some, drop, length};
ghost use Rattle.act_grid.specs.declared.Point.{Point};
ghost use Rattle.act_geom.specs.Rings.{IsShape};
ghost use Rattle.act_super.specs.declared.entry.Zone.{Zone};
ghost use Rattle.act_super.specs.States.{IsFor, changed, has_key, key_of, reshaped, shape_of, with_zone, without_key};
ghost use Rattle.act_image.specs.Plans.{IsChains};

use crate::chains::Chains;
use act_geom::Shape;
use act_grid::NoMemory;
use act_super::{Next, Super};
use std::alloc::Global;

/// The chains of all zones of the state after the change, in their order.
pub(crate) fn chains_after(alloc: Global, state: &Super, next: &Next) -> Result<Chains, NoMemory>
    requires { IsFor state.now.settings state.now.state next.now }
    ensures { IfOk result (IsChains (changed state.now.state.zones next.now.entry)) }
{
    let Some(key) = next.key() else {
        return all_chains(alloc, state);
    };
    match next.shape() {
        None => chains_without(alloc, state, key),
        Some(shape) => {
            if stands(state, key) {
                reshaped_chains(alloc, state, key, shape)
            } else {
                chains_with(alloc, state, key, shape)
            }
        }
    }
}

/// A key has 32 bits, and a shape is one.
pub(crate) fn change_is_sound(next: &Next)
    ensures key { (key : ℕ) → key_of next.now.entry ≡ Some key → key < 2 ^ 32 }
    ensures shape { (shape : List (List Point)) → shape_of next.now.entry ≡ Some shape → IsShape shape }
{
    let _key = next.key();
    if let Some(shape) = next.shape() {
        let _rings = shape.rings();
    }
}

/// Whether a zone with the key stands.
pub(crate) fn stands(state: &Super, key: u32) -> bool
    ensures { result ≡ has_key key state.now.state.zones }
{
    for i in 0..state.zones() {
        if state.zone_key(i) == key {
            return true;
        }
    }
    false
}

fn all_chains(alloc: Global, state: &Super) -> Result<Chains, NoMemory>
    ensures { IfOk result (IsChains state.now.state.zones) }
{
    let mut chains = Chains::new(alloc);
    for i in 0..state.zones() {
        chains.push(alloc, state.zone_key(i), state.zone_shape(i))?;
    }
    Ok(chains)
}

fn chains_without(alloc: Global, state: &Super, key: u32) -> Result<Chains, NoMemory>
    ensures { IfOk result (IsChains (without_key key state.now.state.zones)) }
{
    let mut chains = Chains::new(alloc);
    for i in 0..state.zones() {
        if state.zone_key(i) != key {
            chains.push(alloc, state.zone_key(i), state.zone_shape(i))?;
        }
    }
    Ok(chains)
}

fn reshaped_chains(
    alloc: Global,
    state: &Super,
    key: u32,
    shape: &Shape,
) -> Result<Chains, NoMemory>
    ensures { IfOk result (IsChains (reshaped key shape.now state.now.state.zones)) }
{
    let mut chains = Chains::new(alloc);
    for i in 0..state.zones() {
        if state.zone_key(i) == key {
            chains.push(alloc, key, shape)?;
        } else {
            chains.push(alloc, state.zone_key(i), state.zone_shape(i))?;
        }
    }
    Ok(chains)
}

fn chains_with(alloc: Global, state: &Super, key: u32, shape: &Shape) -> Result<Chains, NoMemory>
    ensures { IfOk result (IsChains (with_zone (record { key = key; shape = shape.now }) state.now.state.zones)) }
{
    let mut chains = Chains::new(alloc);
    let mut i = 0;
    while i < state.zones() && state.zone_key(i) <= key {
        chains.push(alloc, state.zone_key(i), state.zone_shape(i))?;
        i += 1;
    }
    chains.push(alloc, key, shape)?;
    push_rest(&mut chains, alloc, state, i)?;
    Ok(chains)
}

// Puts the chains of the zones from a place on.
fn push_rest(chains: &mut Chains, alloc: Global, state: &Super, from: u32) -> Result<(), NoMemory>
    requires { from ≤ length state.now.state.zones }
    ensures { OnOk result ((zones : List Zone) → IsChains zones chains.old → IsChains (zones ++ drop from state.now.state.zones) chains.new) }
{
    for i in from..state.zones() {
        chains.push(alloc, state.zone_key(i), state.zone_shape(i))?;
    }
    Ok(())
}
