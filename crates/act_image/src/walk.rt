//! The nodes of the state after a prepared change, from the root down.

ghost use Rattle.std.specs.Prelude.{true, ◌≡◌, ◌+◌, ◌%◌, ◌<◌, ◌≤◌, ◌^◌, ◌++◌, [], ◌∷◌, ℕ, List, All, IfOk, OnOk, length, map, slice_index_or};
ghost use Rattle.act_grid.specs.Cell.{root_cell};
ghost use Rattle.act_super.specs.declared.entry.Zone.{Zone};
ghost use Rattle.act_super.specs.declared.refs.ZoneRef.{ZoneRef as ZoneReference};
ghost use Rattle.act_super.specs.Nodes.{IsNode, node_children, node_leaves};
ghost use Rattle.act_super.specs.Sizes.{refs_of};
ghost use Rattle.act_super.specs.Stands.{entry_for};
ghost use Rattle.act_super.specs.States.{IsFor, after, changed, has_key};
ghost use Rattle.act_image.specs.Plans.{IsChains, IsLeafOf, IsWalk, IsWalked, chains_from, child_spots, filled, found_refs, leaf_spots, lists_of, no_fill, put_list, put_lists, refs_on, slot_refs, spot_at, spots_of, start_at};

use crate::chains::Chains;
use crate::first::Firsts;
use crate::fits::fits;
use crate::lists::{Fill, ListRow, put_list};
use crate::nodes::NodePlace;
use crate::spots::{Spot, Spots};
use act_cover::Cells;
use act_entry::{Entry, Ref};
use act_grid::{Cell, NoMemory};
use act_super::{Next, Super, ZoneRef, ZoneRefs};
use std::alloc::{AllocError, Global};

/// The nodes so far: their cells, the root first and the child nodes of each behind those of the node before, and for the
/// first of them their list rows, how many child nodes each has, their entries and what stands in their list rows.
#[derive(Debug, Drop)]
pub(crate) struct Nodes {
    pub cells: Vec<Cell>,
    pub places: Vec<NodePlace>,
    pub under: Vec<u32>,
    pub spots: Vec<Spots>,
    pub lists: Vec<ListRow>,
}

/// What stands in one node and in its list rows, and the cells of its child nodes.
#[derive(Debug, Drop)]
pub(crate) struct NodeMade {
    pub spots: Spots,
    pub rows: Vec<ListRow>,
    pub children: Cells,
}

// What the leaves put into their node, and into its list rows.
#[derive(Debug, Drop)]
struct NodeParts {
    spots: Vec<Spot>,
    rows: Vec<ListRow>,
}

// The references by where the chains of their zones begin.
fn slots(alloc: Global, places: &Firsts, refs: &[ZoneRef]) -> Result<Vec<Ref>, AllocError>
    ensures { IfOk result (λ slots. slots.items ≡ found_refs places.now refs.now) }
{
    let mut slots = Vec::with_capacity(alloc, refs.len())?;
    for r in refs {
        slots.push(Ref {
            row: places.of(r.key),
            hit: r.hit,
        })?;
    }
    Ok(slots)
}

// The entry of references, where a list of them would begin there.
fn entry_for(refs: &[Ref], row: u32, place: u8) -> Entry
    ensures { result ≡ entry_for refs.now row place }
{
    match refs.len() {
        0 => Entry::Empty,
        1 => Entry::One(refs[0]),
        2 => Entry::Two(refs[0], refs[1]),
        _ => Entry::Table { row, place },
    }
}

// What a leaf with these references adds to its node, whose list rows begin at one.
fn leaf_part(
    alloc: Global,
    _state: &Super,
    _next: &Next,
    places: &Firsts,
    level: u32,
    base: u32,
    leaf: Cell,
    refs: &ZoneRefs,
    fill: &mut Fill,
    rows: &mut Vec<ListRow>,
) -> Result<Spot, NoMemory>
    requires prepared { IsFor _state.now.settings _state.now.state _next.now }
    requires places { places.now ≡ chains_from 0 (changed _state.now.state.zones _next.now.entry) }
    requires leaf { IsLeafOf level leaf }
    requires refs { refs.now ≡ refs_of (changed _state.now.state.zones _next.now.entry) leaf }
    ensures spot { let zones = changed _state.now.state.zones _next.now.entry in let start = start_at fill.old (length (refs_of zones leaf)) in IfOk result (λ spot. spot ≡ spot_at level leaf (entry_for (refs_on zones leaf) (base + start.row) start.place)) }
    ensures fill { let zones = changed _state.now.state.zones _next.now.entry in IfOk result (λ spot. fill.new ≡ filled fill.old (length (refs_of zones leaf))) }
    ensures rows { let zones = changed _state.now.state.zones _next.now.entry in IfOk result (λ spot. rows.new.items ≡ put_list fill.old (length (refs_of zones leaf)) rows.old.items (refs_on zones leaf)) }
{
    let refs = slots(alloc, places, refs.as_slice())?;
    let count = fits(refs.len())?;
    let start = fill.start(count);
    let row = fits(base as usize + start.row as usize)?;
    put_list(alloc, rows, *fill, count, refs.as_slice())?;
    fill.put(count)?;
    let slot = leaf.slot(level);
    Ok(Spot {
        first: slot.first,
        count: slot.count,
        entry: entry_for(refs.as_slice(), row, start.place),
    })
}

// What the leaves, each with its references, add to their node.
fn leaf_parts(
    alloc: Global,
    state: &Super,
    next: &Next,
    places: &Firsts,
    level: u32,
    base: u32,
    leaves: &[Cell],
    refs: &[ZoneRefs],
) -> Result<NodeParts, NoMemory>
    requires prepared { IsFor state.now.settings state.now.state next.now }
    requires places { places.now ≡ chains_from 0 (changed state.now.state.zones next.now.entry) }
    requires leaves { (k : ℕ) → k < length leaves.now → IsLeafOf level (slice_index_or leaves.now k root_cell) }
    requires refs { refs.now ≡ map (refs_of (changed state.now.state.zones next.now.entry)) leaves.now }
    ensures spots { IfOk result (λ parts. parts.spots.items ≡ leaf_spots (changed state.now.state.zones next.now.entry) level base no_fill leaves.now) }
    ensures rows { IfOk result (λ parts. parts.rows.items ≡ put_lists (changed state.now.state.zones next.now.entry) no_fill [] leaves.now) }
{
    let mut spots = Vec::new(alloc);
    let mut rows = Vec::new(alloc);
    let mut fill = Fill::empty();
    for i in 0..leaves.len() {
        let spot = leaf_part(
            alloc, state, next, places, level, base, leaves[i], &refs[i], &mut fill, &mut rows,
        )?;
        spots.push(spot)?;
    }
    Ok(NodeParts { spots, rows })
}

// Puts the entries of child nodes, which stand one behind the other from one on.
fn push_children(
    spots: &mut Vec<Spot>,
    level: u32,
    slot: u32,
    children: &[Cell],
) -> Result<(), NoMemory>
    requires { (k : ℕ) → k < length children.now → IsLeafOf level (slice_index_or children.now k root_cell) }
    ensures { OnOk result (spots.new.items ≡ spots.old.items ++ child_spots level slot children.now) }
{
    for i in 0..children.len() {
        let at = fits(slot as usize + i)?;
        let filled = children[i].slot(level);
        spots.push(Spot {
            first: filled.first,
            count: filled.count,
            entry: Entry::Child(at),
        })?;
    }
    Ok(())
}

/// What stands in a node of the state after the change and in its list rows, which begin at one, and the cells of its child
/// nodes, which begin at another. It asks once for the node.
pub(crate) fn node_made(
    alloc: Global,
    state: &Super,
    next: &Next,
    places: &Firsts,
    cell: Cell,
    base: u32,
    slot: u32,
) -> Result<NodeMade, NoMemory>
    requires prepared { IsFor state.now.settings state.now.state next.now }
    requires places { places.now ≡ chains_from 0 (changed state.now.state.zones next.now.entry) }
    requires node { IsNode state.now.settings (after state.now.settings state.now.state next.now.entry) cell }
    ensures spots { IfOk result (λ made. made.spots ≡ spots_of state.now.settings (after state.now.settings state.now.state next.now.entry) base slot cell) }
    ensures rows { IfOk result (λ made. made.rows.items ≡ lists_of state.now.settings (after state.now.settings state.now.state next.now.entry) cell) }
    ensures children { IfOk result (λ made. made.children ≡ node_children state.now.settings (after state.now.settings state.now.state next.now.entry) cell) }
{
    let node = next.node(alloc, state, cell)?;
    let level = cell.level();
    let parts = leaf_parts(
        alloc,
        state,
        next,
        places,
        level,
        base,
        node.leaves.as_slice(),
        node.refs.as_slice(),
    )?;
    let NodeParts { mut spots, rows } = parts;
    push_children(&mut spots, level, slot, node.children.as_slice())?;
    Ok(NodeMade {
        spots: Spots::from_vec(spots),
        rows,
        children: node.children,
    })
}

impl Nodes {
    ghost use Rattle.std.specs.Prelude.{◌≡◌, ◌+◌, ◌<◌, IfOk, OnOk, length};
    ghost use Rattle.act_super.specs.States.{IsFor, after, changed};
    ghost use Rattle.act_image.specs.Plans.{IsChains, IsWalk, IsWalked, chains_from};

    /// All nodes of the state after the change. It asks once for each node.
    pub fn walk(
        alloc: Global,
        state: &Super,
        next: &Next,
        chains: &Chains,
    ) -> Result<Nodes, NoMemory>
        requires prepared { IsFor state.now.settings state.now.state next.now }
        requires chains { IsChains (changed state.now.state.zones next.now.entry) chains.now }
        ensures { IfOk result (IsWalked state.now.settings (after state.now.settings state.now.state next.now.entry)) }
    {
        let places = Firsts::new(chains.places.as_slice());
        let mut nodes = Nodes::root(alloc, state, next)?;
        for k in 0..u32::MAX {
            if k as usize == nodes.cells.len() {
                return Ok(nodes);
            }
            nodes.step(alloc, state, next, &places, k)?;
        }
        Err(NoMemory)
    }

    // The root, which isn't walked yet.
    fn root(alloc: Global, state: &Super, next: &Next) -> Result<Nodes, NoMemory>
        ensures { IfOk result (IsWalk state.now.settings (after state.now.settings state.now.state next.now.entry) 0) }
    {
        let mut cells = Vec::new(alloc);
        cells.push(Cell::root())?;
        Ok(Nodes {
            cells,
            places: Vec::new(alloc),
            under: Vec::new(alloc),
            spots: Vec::new(alloc),
            lists: Vec::new(alloc),
        })
    }

    // Walks the k-th node.
    fn step(
        &mut self,
        alloc: Global,
        state: &Super,
        next: &Next,
        places: &Firsts,
        k: u32,
    ) -> Result<(), NoMemory>
        requires prepared { IsFor state.now.settings state.now.state next.now }
        requires places { places.now ≡ chains_from 0 (changed state.now.state.zones next.now.entry) }
        requires walk { IsWalk state.now.settings (after state.now.settings state.now.state next.now.entry) k self.old }
        requires within { k < length self.old.cells.items }
        ensures { OnOk result (IsWalk state.now.settings (after state.now.settings state.now.state next.now.entry) (k + 1) self.new) }
    {
        let cell = self.cells[k as usize];
        let base = fits(self.lists.len())?;
        let slot = fits(self.cells.len())?;
        let made = node_made(alloc, state, next, places, cell, base, slot)?;
        let NodeMade {
            spots,
            mut rows,
            children,
        } = made;
        let count = fits(rows.len())?;
        let below = fits(children.as_slice().len())?;
        self.places.push(NodePlace {
            cell,
            first: base,
            count,
        })?;
        self.under.push(below)?;
        self.spots.push(spots)?;
        self.lists.append(&mut rows)?;
        self.cells.extend_from_slice(children.as_slice())?;
        Ok(())
    }
}
