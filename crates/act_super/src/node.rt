//! The leaves and the child nodes of a node.

ghost use Rattle.std.specs.Prelude.{◌≡◌, ◌++◌, ◌<◌, ◌≤◌, IfOk, OnOk, length, map};
ghost use Rattle.act_grid.specs.Cell.{IsCell, child_of};
ghost use Rattle.act_super.specs.Grounds.{is_split};
ghost use Rattle.act_super.specs.Listings.{AreFramed, listed_ground, refs_here, spliced_keys, standings_in};
ghost use Rattle.act_super.specs.NodeParts.{leaves_near, splits_near};
ghost use Rattle.act_super.specs.Places.{zones_with};
ghost use Rattle.act_super.specs.Sizes.{refs_of};
ghost use Rattle.act_super.specs.Sound.{spliced};
ghost use Rattle.act_super.specs.Standings.{shapes_in, standing_ground};

use crate::frame::{is_apart, is_around};
use crate::listed::{Listed, all_listed, frame_around, is_parted, listed_on, refs_at};
use crate::marks::Marks;
use crate::refs::ZoneRefs;
use crate::standing::Standing;
use act_cover::Cells;
use act_grid::{Cell, Hull};
use std::alloc::{AllocError, Global};

/// The levels that a node spans.
const NODE_LEVELS: u8 = 4;

/// The leaves of a node, and the cells of its child nodes, both in Z order, and the references of each leaf.
#[derive(Debug, Drop)]
pub struct Node {
    pub leaves: Cells,
    pub children: Cells,
    pub refs: Vec<ZoneRefs>,
}

/// The node of a reached cell, where these zones stand: those before a place, perhaps one more, and those from a place
/// on. It looks at all zones once, and at those on each cell of the node once for each of its children.
pub(crate) fn node_in(
    alloc: Global,
    keys: &[u32],
    standings: &[Standing],
    from: usize,
    key: u32,
    new: Option<&Standing>,
    to: usize,
    marks: &Marks,
    cell: Cell,
) -> Result<Node, AllocError>
    requires lengths { length standings.now ≡ length keys.now }
    requires from { from ≤ length keys.now }
    requires to { to ≤ length keys.now }
    requires level { cell.level ≤ 24 }
    ensures leaves { IfOk result (λ node. node.leaves ≡ leaves_near (standing_ground marks.now) 4 (spliced standings.now from new.entry to) cell) }
    ensures children { IfOk result (λ node. node.children ≡ splits_near (standing_ground marks.now) 4 (spliced standings.now from new.entry to) cell) }
    ensures refs { let zones = zones_with (spliced_keys keys.now from key new.entry to) (shapes_in (spliced standings.now from new.entry to)) in IfOk result (λ node. node.refs.items ≡ map (refs_of zones) node.leaves) }
{
    let zones = all_listed(alloc, keys, standings, from, key, new, to)?;
    node_of(alloc, zones.as_slice(), marks, cell)
}

fn node_of(alloc: Global, zones: &[Listed], marks: &Marks, cell: Cell) -> Result<Node, AllocError>
    requires { cell.level ≤ 24 }
    ensures leaves { IfOk result (λ node. node.leaves ≡ leaves_near (standing_ground marks.now) 4 (standings_in zones.now) cell) }
    ensures children { IfOk result (λ node. node.children ≡ splits_near (standing_ground marks.now) 4 (standings_in zones.now) cell) }
    ensures refs { IfOk result (λ node. node.refs.items ≡ map (refs_here zones.now) node.leaves) }
{
    let level = cell.level();
    prove!(level <= 24);
    let mut leaves = Vec::new(alloc);
    let mut children = Vec::new(alloc);
    let mut refs = Vec::new(alloc);
    let there = listed_on(alloc, zones, marks, cell)?;
    near(
        alloc,
        marks,
        NODE_LEVELS,
        there.zones.as_slice(),
        frame_around(there.zones.as_slice()),
        there.split,
        cell,
        &mut leaves,
        &mut children,
        &mut refs,
    )?;
    Ok(Node {
        leaves: Cells::from_vec(leaves),
        children: Cells::from_vec(children),
        refs,
    })
}

// Puts the leaves within k levels of a reached cell, the references of each, and the split cells k levels below it. The
// zones are those on the cell at least, a box around them is given, and `split` says whether the cell is split.
#[cycle(near)]
fn near(
    alloc: Global,
    marks: &Marks,
    k: u8,
    zones: &[Listed],
    frame: Hull,
    split: bool,
    cell: Cell,
    leaves: &mut Vec<Cell>,
    children: &mut Vec<Cell>,
    refs: &mut Vec<ZoneRefs>,
) -> Result<(), AllocError>
    requires framed { AreFramed frame zones.now }
    requires cell { IsCell cell }
    requires split { split ≡ is_split (listed_ground marks.now) zones.now cell }
    ensures leaves { OnOk result (leaves.new.items ≡ leaves.old.items ++ leaves_near (listed_ground marks.now) k zones.now cell) }
    ensures children { OnOk result (children.new.items ≡ children.old.items ++ splits_near (listed_ground marks.now) k zones.now cell) }
    ensures refs { OnOk result (refs.new.items ≡ refs.old.items ++ map (refs_here zones.now) (leaves_near (listed_ground marks.now) k zones.now cell)) }
{
    if !split {
        leaves.push(cell)?;
        refs.push(refs_at(alloc, zones, cell)?)?;
        return Ok(());
    }
    if k == 0 {
        children.push(cell)?;
        return Ok(());
    }
    near_below(
        alloc,
        marks,
        k - 1,
        zones,
        frame,
        cell,
        0,
        leaves,
        children,
        refs,
    )?;
    near_below(
        alloc,
        marks,
        k - 1,
        zones,
        frame,
        cell,
        1,
        leaves,
        children,
        refs,
    )?;
    near_below(
        alloc,
        marks,
        k - 1,
        zones,
        frame,
        cell,
        2,
        leaves,
        children,
        refs,
    )?;
    near_below(
        alloc,
        marks,
        k - 1,
        zones,
        frame,
        cell,
        3,
        leaves,
        children,
        refs,
    )?;
    Ok(())
}

// The same for a child of a reached cell. Where the box is apart from it, it is a leaf. Where the box lies within it, or
// no cells under it are asked for, only a zone that asks for its split is looked for.
#[cycle(near)]
fn near_below(
    alloc: Global,
    marks: &Marks,
    k: u8,
    zones: &[Listed],
    frame: Hull,
    cell: Cell,
    q: u8,
    leaves: &mut Vec<Cell>,
    children: &mut Vec<Cell>,
    refs: &mut Vec<ZoneRefs>,
) -> Result<(), AllocError>
    requires framed { AreFramed frame zones.now }
    requires level { cell.level < 28 }
    requires cell { IsCell cell }
    requires quarter { q < 4 }
    ensures leaves { OnOk result (leaves.new.items ≡ leaves.old.items ++ leaves_near (listed_ground marks.now) k zones.now (child_of cell q)) }
    ensures children { OnOk result (children.new.items ≡ children.old.items ++ splits_near (listed_ground marks.now) k zones.now (child_of cell q)) }
    ensures refs { OnOk result (refs.new.items ≡ refs.old.items ++ map (refs_here zones.now) (leaves_near (listed_ground marks.now) k zones.now (child_of cell q))) }
{
    let below = cell.child(q);
    let hull = below.hull();
    if is_apart(frame, hull) {
        leaves.push(below)?;
        refs.push(ZoneRefs::from_vec(Vec::new(alloc)))?;
        return Ok(());
    }
    if k == 0 || is_around(hull, frame) {
        let split = is_parted(zones, marks, below);
        return near(
            alloc, marks, k, zones, frame, split, below, leaves, children, refs,
        );
    }
    let there = listed_on(alloc, zones, marks, below)?;
    near(
        alloc,
        marks,
        k,
        there.zones.as_slice(),
        frame,
        there.split,
        below,
        leaves,
        children,
        refs,
    )?;
    Ok(())
}
