//! The leaves of the state after a prepared change.

ghost use Rattle.std.specs.Prelude.{◌≡◌, ◌+◌, ◌++◌, ◌≤◌, [], ◌∷◌, IfOk, None, true, false, drop, length, map, take};
ghost use Rattle.act_cover.specs.Level.{level_of};
ghost use Rattle.act_super.specs.Grounds.{leaf_at, zone_ground};
ghost use Rattle.act_super.specs.NodeParts.{leaves_near, splits_near};
ghost use Rattle.act_super.specs.Places.{zones_with};
ghost use Rattle.act_super.specs.Nodes.{node_children, node_leaves};
ghost use Rattle.act_super.specs.Sizes.{leaf_of, refs_of};
ghost use Rattle.act_super.specs.Standings.{shapes_in};
ghost use Rattle.act_super.specs.States.{IsFor, after, changed, has_key, reshaped, with_zone, without_key};

use crate::leaf::leaf_in;
use crate::marks::Marks;
use crate::next::{Change, Next};
use crate::node::{Node, node_in};
use crate::refs::{ZoneRef, ZoneRefs, push_ref, push_refs};
use crate::search::place;
use crate::standing::Standing;
use crate::state::Super;
use act_grid::{Cell, NoMemory, Point};
use std::alloc::{AllocError, Global};

impl Next {
    /// The leaf that holds the point in the state after the change. It costs what `Super::leaf` does.
    pub fn leaf(&self, state: &Super, p: Point) -> Cell
        requires { IsFor state.now.settings state.now.state self.now }
        ensures { result ≡ leaf_of state.now.settings (after state.now.settings state.now.state self.now.entry) p }
    {
        match &self.change {
            Change::Add(key, zone) => state.leaf_added(*key, zone, &self.marks, p),
            Change::DropZone(key) => state.leaf_dropped(*key, &self.marks, p),
            Change::Replace(key, zone) => state.leaf_reshaped(*key, zone, &self.marks, p),
            Change::Train(_) => state.leaf_trained(&self.marks, p),
        }
    }

    /// The references of a leaf of the state after the change, by ascending key.
    pub fn refs(&self, alloc: Global, state: &Super, cell: Cell) -> Result<ZoneRefs, NoMemory>
        requires { IsFor state.now.settings state.now.state self.now }
        ensures { IfOk result (λ refs. refs ≡ refs_of (changed state.now.state.zones self.now.entry) cell) }
    {
        let refs = match &self.change {
            Change::Add(key, zone) => state.refs_added(alloc, *key, zone, cell)?,
            Change::DropZone(key) => state.refs_dropped(alloc, *key, cell)?,
            Change::Replace(key, zone) => state.refs_reshaped(alloc, *key, zone, cell)?,
            Change::Train(_) => return state.refs(alloc, cell),
        };
        Ok(ZoneRefs::from_vec(refs))
    }

    /// The leaves of a node of the state after the change, with the cells of its child nodes, in Z order, and the
    /// references of each leaf.
    pub fn node(&self, alloc: Global, state: &Super, cell: Cell) -> Result<Node, NoMemory>
        requires prepared { IsFor state.now.settings state.now.state self.now }
        requires level { cell.level ≤ 24 }
        ensures leaves { IfOk result (λ node. node.leaves ≡ node_leaves state.now.settings (after state.now.settings state.now.state self.now.entry) cell) }
        ensures children { IfOk result (λ node. node.children ≡ node_children state.now.settings (after state.now.settings state.now.state self.now.entry) cell) }
        ensures refs { IfOk result (λ node. node.refs.items ≡ map (refs_of (changed state.now.state.zones self.now.entry)) node.leaves) }
    {
        let node = match &self.change {
            Change::Add(key, zone) => state.node_added(alloc, *key, zone, &self.marks, cell)?,
            Change::DropZone(key) => state.node_dropped(alloc, *key, &self.marks, cell)?,
            Change::Replace(key, zone) => {
                state.node_reshaped(alloc, *key, zone, &self.marks, cell)?
            }
            Change::Train(_) => state.node_trained(alloc, &self.marks, cell)?,
        };
        Ok(node)
    }
}

impl Super {
    fn leaf_added(&self, key: u32, zone: &Standing, marks: &Marks, p: Point) -> Cell
        requires free { has_key key self.now.state.zones ≡ false }
        requires level { zone.now.level ≡ level_of zone.now.shape self.now.settings.cells }
        ensures { result ≡ leaf_at (zone_ground self.now.settings marks.now) (with_zone (record { key = key; shape = zone.now.shape }) self.now.state.zones) p }
    {
        let Err(at) = place(&self.keys, key) else {
            unreachable!()
        };
        leaf_in(&self.standings, at, Some(zone), at, marks, p)
    }

    fn leaf_dropped(&self, key: u32, marks: &Marks, p: Point) -> Cell
        requires { has_key key self.now.state.zones ≡ true }
        ensures { result ≡ leaf_at (zone_ground self.now.settings marks.now) (without_key key self.now.state.zones) p }
    {
        let Ok(at) = place(&self.keys, key) else {
            unreachable!()
        };
        leaf_in(&self.standings, at, None, at + 1, marks, p)
    }

    fn leaf_reshaped(&self, key: u32, zone: &Standing, marks: &Marks, p: Point) -> Cell
        requires stands { has_key key self.now.state.zones ≡ true }
        requires level { zone.now.level ≡ level_of zone.now.shape self.now.settings.cells }
        ensures { result ≡ leaf_at (zone_ground self.now.settings marks.now) (reshaped key zone.now.shape self.now.state.zones) p }
    {
        let Ok(at) = place(&self.keys, key) else {
            unreachable!()
        };
        leaf_in(&self.standings, at, Some(zone), at + 1, marks, p)
    }

    pub(crate) fn leaf_trained(&self, marks: &Marks, p: Point) -> Cell
        ensures { result ≡ leaf_at (zone_ground self.now.settings marks.now) self.now.state.zones p }
    {
        let last = self.standings.len();
        leaf_in(&self.standings, last, None, last, marks, p)
    }

    fn refs_added(
        &self,
        alloc: Global,
        key: u32,
        zone: &Standing,
        cell: Cell,
    ) -> Result<Vec<ZoneRef>, AllocError>
        requires free { has_key key self.now.state.zones ≡ false }
        requires level { zone.now.level ≡ level_of zone.now.shape self.now.settings.cells }
        ensures { IfOk result (λ refs. refs.items ≡ refs_of (with_zone (record { key = key; shape = zone.now.shape }) self.now.state.zones) cell) }
    {
        let Err(at) = place(&self.keys, key) else {
            unreachable!()
        };
        refs_with(alloc, &self.keys, &self.standings, at, key, zone, at, cell)
    }

    fn refs_dropped(&self, alloc: Global, key: u32, cell: Cell) -> Result<Vec<ZoneRef>, AllocError>
        requires { has_key key self.now.state.zones ≡ true }
        ensures { IfOk result (λ refs. refs.items ≡ refs_of (without_key key self.now.state.zones) cell) }
    {
        let Ok(at) = place(&self.keys, key) else {
            unreachable!()
        };
        refs_without(alloc, &self.keys, &self.standings, at, cell)
    }

    fn refs_reshaped(
        &self,
        alloc: Global,
        key: u32,
        zone: &Standing,
        cell: Cell,
    ) -> Result<Vec<ZoneRef>, AllocError>
        requires stands { has_key key self.now.state.zones ≡ true }
        requires level { zone.now.level ≡ level_of zone.now.shape self.now.settings.cells }
        ensures { IfOk result (λ refs. refs.items ≡ refs_of (reshaped key zone.now.shape self.now.state.zones) cell) }
    {
        let Ok(at) = place(&self.keys, key) else {
            unreachable!()
        };
        refs_with(
            alloc,
            &self.keys,
            &self.standings,
            at,
            key,
            zone,
            at + 1,
            cell,
        )
    }

    fn node_added(
        &self,
        alloc: Global,
        key: u32,
        zone: &Standing,
        marks: &Marks,
        cell: Cell,
    ) -> Result<Node, AllocError>
        requires free { has_key key self.now.state.zones ≡ false }
        requires level { zone.now.level ≡ level_of zone.now.shape self.now.settings.cells }
        requires deep { cell.level ≤ 24 }
        ensures leaves { IfOk result (λ node. node.leaves ≡ leaves_near (zone_ground self.now.settings marks.now) 4 (with_zone (record { key = key; shape = zone.now.shape }) self.now.state.zones) cell) }
        ensures children { IfOk result (λ node. node.children ≡ splits_near (zone_ground self.now.settings marks.now) 4 (with_zone (record { key = key; shape = zone.now.shape }) self.now.state.zones) cell) }
        ensures refs { IfOk result (λ node. node.refs.items ≡ map (refs_of (with_zone (record { key = key; shape = zone.now.shape }) self.now.state.zones)) node.leaves) }
    {
        let Err(at) = place(&self.keys, key) else {
            unreachable!()
        };
        node_in(
            alloc,
            &self.keys,
            &self.standings,
            at,
            key,
            Some(zone),
            at,
            marks,
            cell,
        )
    }

    fn node_dropped(
        &self,
        alloc: Global,
        key: u32,
        marks: &Marks,
        cell: Cell,
    ) -> Result<Node, AllocError>
        requires stands { has_key key self.now.state.zones ≡ true }
        requires deep { cell.level ≤ 24 }
        ensures leaves { IfOk result (λ node. node.leaves ≡ leaves_near (zone_ground self.now.settings marks.now) 4 (without_key key self.now.state.zones) cell) }
        ensures children { IfOk result (λ node. node.children ≡ splits_near (zone_ground self.now.settings marks.now) 4 (without_key key self.now.state.zones) cell) }
        ensures refs { IfOk result (λ node. node.refs.items ≡ map (refs_of (without_key key self.now.state.zones)) node.leaves) }
    {
        let Ok(at) = place(&self.keys, key) else {
            unreachable!()
        };
        node_in(
            alloc,
            &self.keys,
            &self.standings,
            at,
            key,
            None,
            at + 1,
            marks,
            cell,
        )
    }

    fn node_reshaped(
        &self,
        alloc: Global,
        key: u32,
        zone: &Standing,
        marks: &Marks,
        cell: Cell,
    ) -> Result<Node, AllocError>
        requires stands { has_key key self.now.state.zones ≡ true }
        requires level { zone.now.level ≡ level_of zone.now.shape self.now.settings.cells }
        requires deep { cell.level ≤ 24 }
        ensures leaves { IfOk result (λ node. node.leaves ≡ leaves_near (zone_ground self.now.settings marks.now) 4 (reshaped key zone.now.shape self.now.state.zones) cell) }
        ensures children { IfOk result (λ node. node.children ≡ splits_near (zone_ground self.now.settings marks.now) 4 (reshaped key zone.now.shape self.now.state.zones) cell) }
        ensures refs { IfOk result (λ node. node.refs.items ≡ map (refs_of (reshaped key zone.now.shape self.now.state.zones)) node.leaves) }
    {
        let Ok(at) = place(&self.keys, key) else {
            unreachable!()
        };
        node_in(
            alloc,
            &self.keys,
            &self.standings,
            at,
            key,
            Some(zone),
            at + 1,
            marks,
            cell,
        )
    }

    pub(crate) fn node_trained(
        &self,
        alloc: Global,
        marks: &Marks,
        cell: Cell,
    ) -> Result<Node, AllocError>
        requires { cell.level ≤ 24 }
        ensures leaves { IfOk result (λ node. node.leaves ≡ leaves_near (zone_ground self.now.settings marks.now) 4 self.now.state.zones cell) }
        ensures children { IfOk result (λ node. node.children ≡ splits_near (zone_ground self.now.settings marks.now) 4 self.now.state.zones cell) }
        ensures refs { IfOk result (λ node. node.refs.items ≡ map (refs_of self.now.state.zones) node.leaves) }
    {
        let last = self.standings.len();
        node_in(
            alloc,
            &self.keys,
            &self.standings,
            last,
            0,
            None,
            last,
            marks,
            cell,
        )
    }
}

// The references of a cell to the zones before a place, to a new one, and to those from a place on.
fn refs_with(
    alloc: Global,
    keys: &[u32],
    standings: &[Standing],
    from: usize,
    key: u32,
    zone: &Standing,
    to: usize,
    cell: Cell,
) -> Result<Vec<ZoneRef>, AllocError>
    requires lengths { length standings.now ≡ length keys.now }
    requires from { from ≤ length keys.now }
    requires to { to ≤ length keys.now }
    ensures { IfOk result (λ refs. refs.items ≡ refs_of (zones_with (take from keys.now) (shapes_in (take from standings.now))) cell ++ refs_of (record { key = key; shape = zone.now.shape } ∷ []) cell ++ refs_of (zones_with (drop to keys.now) (shapes_in (drop to standings.now))) cell) }
{
    let mut refs = Vec::new(alloc);
    push_refs(&mut refs, &keys[..from], &standings[..from], cell)?;
    push_ref(&mut refs, key, zone, cell, cell.hull())?;
    push_refs(&mut refs, &keys[to..], &standings[to..], cell)?;
    Ok(refs)
}

// The references of a cell to all zones but the one at a place.
fn refs_without(
    alloc: Global,
    keys: &[u32],
    standings: &[Standing],
    at: usize,
    cell: Cell,
) -> Result<Vec<ZoneRef>, AllocError>
    requires lengths { length standings.now ≡ length keys.now }
    requires at { at + 1 ≤ length keys.now }
    ensures { IfOk result (λ refs. refs.items ≡ refs_of (zones_with (take at keys.now) (shapes_in (take at standings.now))) cell ++ refs_of (zones_with (drop (at + 1) keys.now) (shapes_in (drop (at + 1) standings.now))) cell) }
{
    let mut refs = Vec::new(alloc);
    push_refs(&mut refs, &keys[..at], &standings[..at], cell)?;
    push_refs(&mut refs, &keys[at + 1..], &standings[at + 1..], cell)?;
    Ok(refs)
}
