//! The rows of an image that a new one lacks.

ghost use Rattle.std.specs.Prelude.{◌≡◌, ◌+◌, ◌<◌, ◌≤◌, ◌++◌, ℕ, IfOk, OnOk, length, slice_index_or};
ghost use Rattle.std.specs.List.{flat_map};
ghost use Rattle.act_base.specs.Counting.{from};
ghost use Rattle.act_image.specs.Gone.{gone_chain, gone_node};
ghost use Rattle.act_image.specs.Pics.{no_node, part_of};
ghost use Rattle.act_image.specs.Words.{no_chain};

use crate::kept::OldChains;
use crate::old::Old;
use act_grid::NoMemory;
use act_super::Next;
use std::alloc::{AllocError, Global};

/// The rows of the nodes that don't stay, with their list rows, and of the chain of the changed zone.
pub(crate) fn gone_rows(
    alloc: Global,
    old: Old,
    chains: OldChains,
    stays: &[bool],
    next: &Next,
) -> Result<Vec<u32>, NoMemory>
    requires many { (length stays.now ≡ length old.nodes.now) × (length old.nodes.now ≤ length old.rows.now) }
    requires nodes { (i : ℕ) → i < length old.nodes.now → length old.nodes.now + (slice_index_or old.nodes.now i no_node).first + (slice_index_or old.nodes.now i no_node).count ≤ length old.rows.now }
    requires chains { (i : ℕ) → i < length chains.places.now → chains.from + (slice_index_or chains.places.now i no_chain).first + (slice_index_or chains.places.now i no_chain).count ≤ length chains.rows.now }
    ensures { IfOk result (λ gone. gone.items ≡ flat_map (gone_node old.entry.nodes.now stays.now old.entry.rows.now) (from 0 (length old.entry.nodes.now)) ++ flat_map (gone_chain next.now.entry chains.entry.rows.now chains.entry.from) chains.entry.places.now) }
{
    let mut gone = Vec::new(alloc);
    push_nodes(&mut gone, old, stays)?;
    push_chains(&mut gone, chains, next)?;
    Ok(gone)
}

// Puts so many rows from one on behind the others.
fn push_part(gone: &mut Vec<u32>, rows: &[u32], first: usize, count: u32) -> Result<(), AllocError>
    requires { first + count ≤ length rows.now }
    ensures { OnOk result (gone.new.items ≡ gone.old.items ++ part_of rows.now first count) }
{
    let end = first + count as usize;
    gone.extend_from_slice(&rows[first..end])?;
    Ok(())
}

// Puts the rows of the nodes that don't stay.
fn push_nodes(gone: &mut Vec<u32>, old: Old, stays: &[bool]) -> Result<(), AllocError>
    requires many { (length stays.now ≡ length old.nodes.now) × (length old.nodes.now ≤ length old.rows.now) }
    requires nodes { (i : ℕ) → i < length old.nodes.now → length old.nodes.now + (slice_index_or old.nodes.now i no_node).first + (slice_index_or old.nodes.now i no_node).count ≤ length old.rows.now }
    ensures { OnOk result (gone.new.items ≡ gone.old.items ++ flat_map (gone_node old.entry.nodes.now stays.now old.entry.rows.now) (from 0 (length old.entry.nodes.now))) }
{
    for i in 0..old.nodes.len() {
        if !stays[i] {
            let node = old.nodes[i];
            gone.push(old.rows[i])?;
            push_part(
                gone,
                old.rows,
                old.nodes.len() + node.first as usize,
                node.count,
            )?;
        }
    }
    Ok(())
}

// Puts the rows of the chain of the changed zone.
fn push_chains(gone: &mut Vec<u32>, chains: OldChains, next: &Next) -> Result<(), AllocError>
    requires { (i : ℕ) → i < length chains.places.now → chains.from + (slice_index_or chains.places.now i no_chain).first + (slice_index_or chains.places.now i no_chain).count ≤ length chains.rows.now }
    ensures { OnOk result (gone.new.items ≡ gone.old.items ++ flat_map (gone_chain next.now.entry chains.entry.rows.now chains.entry.from) chains.entry.places.now) }
{
    let Some(key) = next.key() else {
        return Ok(());
    };
    for i in 0..chains.places.len() {
        let place = chains.places[i];
        if place.key == key {
            push_part(
                gone,
                chains.rows,
                chains.from + place.first as usize,
                place.count,
            )?;
        }
    }
    Ok(())
}
