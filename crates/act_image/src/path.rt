//! The nodes of the state after a prepared change, with the branches that stay taken from the image before.

ghost use Rattle.std.specs.Prelude.{◌≡◌, ◌+◌, ◌<◌, ◌≤◌, ◌^◌, ◌++◌, not, ℕ, List, IfOk, OnOk, length, map};
ghost use Rattle.act_grid.specs.Cell.{Address};
ghost use Rattle.act_super.specs.Grounds.{is_among};
ghost use Rattle.act_super.specs.Nodes.{IsNode};
ghost use Rattle.act_super.specs.States.{IsFor, after, changed};
ghost use Rattle.act_image.specs.declared.nodes.NodePlace.{NodePlace};
ghost use Rattle.act_image.specs.Fresh.{branch_stays};
ghost use Rattle.act_image.specs.Paths.{HaveOwnCells, IsOld, IsPath, StaysIn, places_on, source_in};
ghost use Rattle.act_image.specs.Plans.{chains_from};

use crate::chains::ChainPlace;
use crate::first::Firsts;
use crate::fits::fits;
use crate::lists::ListRow;
use crate::nodes::NodePlace;
use crate::old::{Old, child_starts, place_of};
use crate::slots::{Slot, push_kept, push_new};
use crate::spots::Spots;
use crate::turned::Turned;
use crate::walk::{NodeMade, node_made};
use act_grid::{Cell, NoMemory};
use act_super::{Next, Super};
use std::alloc::{AllocError, Global};

/// All nodes of the new state, the root first and the child nodes of each behind those of the node before: their cells,
/// their list rows, how many child nodes each has, and which of the rows stay. Entries and words are those of the nodes
/// that don't stay. The last list says for each node before whether it stays.
#[derive(Debug, Drop)]
pub(crate) struct Path {
    pub cells: Vec<Cell>,
    pub places: Vec<NodePlace>,
    pub under: Vec<u32>,
    pub node_slots: Vec<Slot>,
    pub list_slots: Vec<Slot>,
    pub spots: Vec<Spots>,
    pub lists: Vec<ListRow>,
    pub stays: Vec<bool>,
}

/// The nodes so far, and where the node of each cell stood before if it stays, with all below it.
#[derive(Debug, Drop)]
pub(crate) struct Walker {
    pub cells: Vec<Cell>,
    pub sources: Vec<Option<u32>>,
    pub places: Vec<NodePlace>,
    pub under: Vec<u32>,
    pub node_slots: Vec<Slot>,
    pub list_slots: Vec<Slot>,
    pub spots: Vec<Spots>,
    pub lists: Vec<ListRow>,
    // How many list rows the nodes have so far.
    pub base: u32,
}

// Puts the cells of nodes behind the others.
fn push_cells(cells: &mut Vec<Cell>, nodes: &[NodePlace]) -> Result<(), AllocError>
    ensures { OnOk result (cells.new.items ≡ cells.old.items ++ map (λ (node : NodePlace). node.cell) nodes.now) }
{
    for node in nodes {
        cells.push(node.cell)?;
    }
    Ok(())
}

// Puts so many places, from one on, behind the others.
fn push_places(sources: &mut Vec<Option<u32>>, first: u32, count: u32) -> Result<(), AllocError>
    requires { first + count < 2 ^ 32 }
    ensures { OnOk result (sources.new.items ≡ sources.old.items ++ places_on first count) }
{
    for i in 0..count {
        sources.push(Some(first + i))?;
    }
    Ok(())
}

// Puts for each cell where its node stands among these, and None for a cell that is turned.
fn push_sources(
    sources: &mut Vec<Option<u32>>,
    nodes: &[NodePlace],
    turned: &Turned,
    cells: &[Cell],
) -> Result<(), NoMemory>
    requires { HaveOwnCells nodes.now }
    ensures { OnOk result (sources.new.items ≡ sources.old.items ++ map (source_in nodes.now turned.now) cells.now) }
{
    for i in 0..cells.len() {
        let source = source_in(nodes, turned, cells[i])?;
        sources.push(source)?;
    }
    Ok(())
}

// Where the node of a cell stands among these, and None for a cell that is turned.
fn source_in(nodes: &[NodePlace], turned: &Turned, cell: Cell) -> Result<Option<u32>, NoMemory>
    requires { HaveOwnCells nodes.now }
    ensures { IfOk result (λ source. source ≡ source_in nodes.now turned.now cell) }
{
    if turned.has(cell) {
        return Ok(None);
    }
    let at = fits(place_of(nodes, cell))?;
    Ok(Some(at))
}

// For each of so many nodes whether some source is its place.
fn stays_in(alloc: Global, sources: &[Option<u32>], count: usize) -> Result<Vec<bool>, AllocError>
    ensures { IfOk result (λ stays. StaysIn sources.now count stays.items) }
{
    let mut stays = Vec::from_elem(alloc, false, count)?;
    for i in 0..sources.len() {
        if let Some(at) = sources[i] {
            let at = at as usize;
            if at < count {
                stays[at] = true;
            }
        }
    }
    Ok(stays)
}

impl Walker {
    ghost use Rattle.std.specs.Prelude.{◌≡◌, ◌+◌, ◌<◌, not, List, Some, None, IfOk, OnOk, length, slice_index_or};
    ghost use Rattle.act_grid.specs.Cell.{Address};
    ghost use Rattle.act_super.specs.Grounds.{is_among};
    ghost use Rattle.act_super.specs.Nodes.{IsNode};
    ghost use Rattle.act_super.specs.States.{IsFor, after, changed};
    ghost use Rattle.act_image.specs.Fresh.{branch_stays};
    ghost use Rattle.act_image.specs.Paths.{HaveOwnCells, IsOld, IsPath, IsTaken, IsThere, IsWalker, starts_from};
    ghost use Rattle.act_image.specs.Plans.{chains_from};

    // The root, which isn't walked yet.
    fn root(
        alloc: Global,
        state: &Super,
        next: &Next,
        turned: &Turned,
        old: Old,
    ) -> Result<Walker, NoMemory>
        requires turned { (c : Address) → IsNode state.now.settings (after state.now.settings state.now.state next.now.entry) c → is_among turned.now c ≡ not (branch_stays state.now.settings state.now.state (after state.now.settings state.now.state next.now.entry) next.now.entry c) }
        requires once { HaveOwnCells old.nodes.now }
        ensures { IfOk result (IsWalker state.now.settings state.now.state (after state.now.settings state.now.state next.now.entry) next.now.entry old.entry.nodes.now old.entry.rows.now 0) }
    {
        let mut cells = Vec::new(alloc);
        cells.push(Cell::root())?;
        let mut sources = Vec::new(alloc);
        push_sources(&mut sources, old.nodes, turned, cells.as_slice())?;
        Ok(Walker {
            cells,
            sources,
            places: Vec::new(alloc),
            under: Vec::new(alloc),
            node_slots: Vec::new(alloc),
            list_slots: Vec::new(alloc),
            spots: Vec::new(alloc),
            lists: Vec::new(alloc),
            base: 0,
        })
    }

    // Takes the next node from those before, where it stands at one place and its child nodes from another on. They stay
    // where they are.
    fn take(&mut self, old: Old, at: u32, start: u32) -> Result<(), NoMemory>
        requires { IsThere old.nodes.now old.under.now old.rows.now at start }
        ensures { OnOk result (IsTaken old.entry.nodes.now old.entry.under.now old.entry.rows.now at start self.old self.new) }
    {
        let node = old.nodes[at as usize];
        let under = old.under[at as usize];
        self.places.push(NodePlace {
            cell: node.cell,
            first: self.base,
            count: node.count,
        })?;
        self.base = fits(self.base as usize + node.count as usize)?;
        self.under.push(under)?;
        self.node_slots.push(Slot::Kept(old.rows[at as usize]))?;
        let first = old.nodes.len() + node.first as usize;
        push_kept(
            &mut self.list_slots,
            &old.rows[first..first + node.count as usize],
        )?;
        let end = fits(start as usize + under as usize)?;
        push_cells(&mut self.cells, &old.nodes[start as usize..end as usize])?;
        push_places(&mut self.sources, start, under)?;
        Ok(())
    }

    // Asks for the k-th node, which doesn't stay.
    fn ask(
        &mut self,
        alloc: Global,
        state: &Super,
        next: &Next,
        places: &Firsts,
        turned: &Turned,
        old: Old,
        k: u32,
    ) -> Result<(), NoMemory>
        requires prepared { IsFor state.now.settings state.now.state next.now }
        requires places { places.now ≡ chains_from 0 (changed state.now.state.zones next.now.entry) }
        requires turned { (c : Address) → IsNode state.now.settings (after state.now.settings state.now.state next.now.entry) c → is_among turned.now c ≡ not (branch_stays state.now.settings state.now.state (after state.now.settings state.now.state next.now.entry) next.now.entry c) }
        requires once { HaveOwnCells old.nodes.now }
        requires walk { IsWalker state.now.settings state.now.state (after state.now.settings state.now.state next.now.entry) next.now.entry old.nodes.now old.rows.now k self.old }
        requires within { k < length self.old.cells.items }
        requires gone { slice_index_or self.old.sources.items k None ≡ None }
        ensures { OnOk result (IsWalker state.now.settings state.now.state (after state.now.settings state.now.state next.now.entry) next.now.entry old.entry.nodes.now old.entry.rows.now (k + 1) self.new) }
    {
        let cell = self.cells[k as usize];
        let slot = fits(self.cells.len())?;
        let made = node_made(alloc, state, next, places, cell, self.base, slot)?;
        let NodeMade {
            spots,
            mut rows,
            children,
        } = made;
        let count = fits(rows.len())?;
        let under = fits(children.as_slice().len())?;
        self.places.push(NodePlace {
            cell,
            first: self.base,
            count,
        })?;
        self.base = fits(self.base as usize + count as usize)?;
        self.under.push(under)?;
        self.node_slots.push(Slot::New)?;
        push_new(&mut self.list_slots, count)?;
        self.spots.push(spots)?;
        self.lists.append(&mut rows)?;
        push_sources(&mut self.sources, old.nodes, turned, children.as_slice())?;
        self.cells.extend_from_slice(children.as_slice())?;
        Ok(())
    }

    // Walks the k-th node.
    fn step(
        &mut self,
        alloc: Global,
        state: &Super,
        next: &Next,
        places: &Firsts,
        turned: &Turned,
        old: Old,
        starts: &[u32],
        k: u32,
    ) -> Result<(), NoMemory>
        requires prepared { IsFor state.now.settings state.now.state next.now }
        requires places { places.now ≡ chains_from 0 (changed state.now.state.zones next.now.entry) }
        requires turned { (c : Address) → IsNode state.now.settings (after state.now.settings state.now.state next.now.entry) c → is_among turned.now c ≡ not (branch_stays state.now.settings state.now.state (after state.now.settings state.now.state next.now.entry) next.now.entry c) }
        requires copy { (cells : List Address) × IsOld state.now.settings state.now.state old.nodes.now old.under.now old.rows.now cells }
        requires starts { starts.now ≡ starts_from 1 old.under.now }
        requires walk { IsWalker state.now.settings state.now.state (after state.now.settings state.now.state next.now.entry) next.now.entry old.nodes.now old.rows.now k self.old }
        requires within { k < length self.old.cells.items }
        ensures { OnOk result (IsWalker state.now.settings state.now.state (after state.now.settings state.now.state next.now.entry) next.now.entry old.entry.nodes.now old.entry.rows.now (k + 1) self.new) }
    {
        match self.sources[k as usize] {
            Some(at) => self.take(old, at, starts[at as usize])?,
            None => self.ask(alloc, state, next, places, turned, old, k)?,
        }
        Ok(())
    }

    // The whole path, once all nodes are walked.
    fn finish(self, alloc: Global, state: &Super, next: &Next, old: Old) -> Result<Path, NoMemory>
        requires copy { (cells : List Address) × IsOld state.now.settings state.now.state old.nodes.now old.under.now old.rows.now cells }
        requires walk { IsWalker state.now.settings state.now.state (after state.now.settings state.now.state next.now.entry) next.now.entry old.nodes.now old.rows.now (length self.cells.items) self }
        ensures { IfOk result (IsPath state.now.settings state.now.state (after state.now.settings state.now.state next.now.entry) next.now.entry old.entry.nodes.now old.entry.rows.now) }
    {
        let stays = stays_in(alloc, self.sources.as_slice(), old.nodes.len())?;
        let Walker {
            cells,
            sources: _sources,
            places,
            under,
            node_slots,
            list_slots,
            spots,
            lists,
            ..
        } = self;
        Ok(Path {
            cells,
            places,
            under,
            node_slots,
            list_slots,
            spots,
            lists,
            stays,
        })
    }
}

/// All nodes of the state after the change, where those of branches that stay are taken from the image before. It asks once
/// for each other node and its leaves, and takes a few steps for each node that stays.
pub(crate) fn walk_path(
    alloc: Global,
    state: &Super,
    next: &Next,
    places: &[ChainPlace],
    turned: &Turned,
    old: Old,
) -> Result<Path, NoMemory>
    requires prepared { IsFor state.now.settings state.now.state next.now }
    requires places { places.now ≡ chains_from 0 (changed state.now.state.zones next.now.entry) }
    requires turned { (c : Address) → IsNode state.now.settings (after state.now.settings state.now.state next.now.entry) c → is_among turned.now c ≡ not (branch_stays state.now.settings state.now.state (after state.now.settings state.now.state next.now.entry) next.now.entry c) }
    requires copy { (cells : List Address) × IsOld state.now.settings state.now.state old.nodes.now old.under.now old.rows.now cells }
    ensures { IfOk result (IsPath state.now.settings state.now.state (after state.now.settings state.now.state next.now.entry) next.now.entry old.entry.nodes.now old.entry.rows.now) }
{
    let firsts = Firsts::new(places);
    let starts = child_starts(alloc, old.under)?;
    let mut walker = Walker::root(alloc, state, next, turned, old)?;
    for k in 0..u32::MAX {
        if k as usize == walker.cells.len() {
            let path = walker.finish(alloc, state, next, old)?;
            return Ok(path);
        }
        walker.step(
            alloc,
            state,
            next,
            &firsts,
            turned,
            old,
            starts.as_slice(),
            k,
        )?;
    }
    Err(NoMemory)
}
