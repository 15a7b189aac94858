//! The nodes that a change leaves or turns: which nodes of the new state are to be stored anew.

ghost use Rattle.std.specs.Prelude.{◌≡◌, ◌++◌, ◌<◌, ◌≤◌, ◌&&◌, [], true, IfOk, OnOk, cond, drop, filter, length, map, nat_le, nat_lt, take};
ghost use Rattle.std.specs.List.{flat_map, list_all};
ghost use Rattle.std.specs.List.Sorted.{IsNonDecreasing};
ghost use Rattle.act_grid.specs.Cell.{hull_of};
ghost use Rattle.act_cover.specs.Covering.{is_on};
ghost use Rattle.act_super.specs.Choices.{StandFor, spans};
ghost use Rattle.act_super.specs.Grounds.{is_among};
ghost use Rattle.act_super.specs.Nodes.{IsNode, node_children, node_leaves};
ghost use Rattle.act_super.specs.States.{IsFor, after};
ghost use Rattle.act_image.specs.Fresh.{branch_stays, same_cells};
ghost use Rattle.act_image.specs.Turned.{IsPlaces, KeysTell, is_free, turned_under};

use act_geom::Class;
use act_grid::{Cell, NoMemory};
use act_super::{Marks, Next, Node, Super};
use std::alloc::{AllocError, Global};
use std::marker::Model;

/// The cells of the nodes of the state after a change that don't stay: the state before has no equal node of the cell, or
/// it has none of a node under it.
#[derive(Drop)]
pub(crate) struct Turned {
    cells: Marks,
}

impl Model for Turned {
    ghost use Rattle.std.specs.Prelude.{List};
    ghost use Rattle.act_grid.specs.Cell.{Address};

    ghost Value = { List Address };

    ghost view = { λ t. t.cells };
}

impl Turned {
    ghost use Rattle.std.specs.Prelude.{◌≡◌, IfOk, not};
    ghost use Rattle.act_grid.specs.Cell.{Address};
    ghost use Rattle.act_super.specs.Grounds.{is_among};
    ghost use Rattle.act_super.specs.Nodes.{IsNode};
    ghost use Rattle.act_super.specs.States.{IsFor, after};
    ghost use Rattle.act_image.specs.Fresh.{branch_stays};

    /// The nodes that a change turns. It looks at no node under a cell on which the changed zone is Outside before and after
    /// the change and in which the same cells are trained, and asks for each other node once in both states.
    pub fn find(alloc: Global, state: &Super, next: &Next) -> Result<Turned, NoMemory>
        requires { IsFor state.now.settings state.now.state next.now }
        ensures { IfOk result (λ t. (c : Address) → IsNode state.now.settings (after state.now.settings state.now.state next.now.entry) c → is_among t c ≡ not (branch_stays state.now.settings state.now.state (after state.now.settings state.now.state next.now.entry) next.now.entry c)) }
    {
        let places = places_of(alloc, state, next)?;
        let keys = keys_of(alloc, state, next)?;
        let mut turned = Vec::new(alloc);
        look(
            alloc,
            state,
            next,
            &places,
            &keys,
            Cell::root(),
            &mut turned,
        )?;
        Ok(Turned {
            cells: Marks::of(alloc, &turned)?,
        })
    }

    /// Whether the node of the cell is one of them. It takes time logarithmic in their number.
    pub fn has(&self, cell: Cell) -> bool
        ensures { result ≡ is_among self.now cell }
    {
        self.cells.has(cell)
    }
}

// Puts the nodes that don't stay, from a node down that the state before has, too, and says whether there is none.
#[cycle(look)]
fn look(
    alloc: Global,
    state: &Super,
    next: &Next,
    places: &[u32],
    keys: &[u64],
    cell: Cell,
    turned: &mut Vec<Cell>,
) -> Result<bool, NoMemory>
    requires prepared { IsFor state.now.settings state.now.state next.now }
    requires places { IsPlaces next.now.entry state.now.state.zones state.now.state.zones places.now }
    requires keys { KeysTell state.now.state (after state.now.settings state.now.state next.now.entry) keys.now }
    requires rising { IsNonDecreasing keys.now }
    requires was { IsNode state.now.settings state.now.state cell }
    requires node { IsNode state.now.settings (after state.now.settings state.now.state next.now.entry) cell }
    ensures stays { IfOk result (λ stays. stays ≡ branch_stays state.now.settings state.now.state (after state.now.settings state.now.state next.now.entry) next.now.entry cell) }
    ensures turned { IfOk result (λ stays. turned.new.items ≡ turned.old.items ++ turned_under state.now.settings state.now.state (after state.now.settings state.now.state next.now.entry) next.now.entry cell) }
{
    if is_untouched(state, next, places, keys, cell) {
        return Ok(true);
    }
    let before = state.node(alloc, cell)?;
    let later = next.node(alloc, state, cell)?;
    let own = is_same(state, next, places, &before, &later);
    let count = turned.len();
    turned.push(cell)?;
    let below = look_below(
        alloc,
        state,
        next,
        places,
        keys,
        cell,
        before.children.as_slice(),
        later.children.as_slice(),
        turned,
    )?;
    if own && below {
        turned.truncate(count);
        return Ok(true);
    }
    Ok(false)
}

// The same for all child nodes of a node, where those before and after the change are given.
#[cycle(look)]
fn look_below(
    alloc: Global,
    state: &Super,
    next: &Next,
    places: &[u32],
    keys: &[u64],
    cell: Cell,
    before: &[Cell],
    later: &[Cell],
    turned: &mut Vec<Cell>,
) -> Result<bool, NoMemory>
    requires prepared { IsFor state.now.settings state.now.state next.now }
    requires places { IsPlaces next.now.entry state.now.state.zones state.now.state.zones places.now }
    requires keys { KeysTell state.now.state (after state.now.settings state.now.state next.now.entry) keys.now }
    requires rising { IsNonDecreasing keys.now }
    requires was { IsNode state.now.settings state.now.state cell }
    requires node { IsNode state.now.settings (after state.now.settings state.now.state next.now.entry) cell }
    requires before { before.now ≡ node_children state.now.settings state.now.state cell }
    requires later { later.now ≡ node_children state.now.settings (after state.now.settings state.now.state next.now.entry) cell }
    ensures stay { IfOk result (λ stay. stay ≡ list_all (branch_stays state.now.settings state.now.state (after state.now.settings state.now.state next.now.entry) next.now.entry) later.now) }
    ensures turned { IfOk result (λ stay. turned.new.items ≡ turned.old.items ++ flat_map (turned_under state.now.settings state.now.state (after state.now.settings state.now.state next.now.entry) next.now.entry) later.now) }
{
    let mut stay = true;
    for i in 0..later.len() {
        let child = later[i];
        if is_among(before, child) {
            let stays = look(alloc, state, next, places, keys, child, turned)?;
            stay = stays & stay;
        } else {
            put_new(alloc, state, next, child, turned)?;
            stay = false;
        }
    }
    Ok(stay)
}

// Puts all nodes from one down that the state before lacks: it lacks those under it, too.
fn put_new(
    alloc: Global,
    state: &Super,
    next: &Next,
    cell: Cell,
    turned: &mut Vec<Cell>,
) -> Result<(), NoMemory>
    requires prepared { IsFor state.now.settings state.now.state next.now }
    requires lacks { IsNode state.now.settings state.now.state cell → ⊥ }
    requires node { IsNode state.now.settings (after state.now.settings state.now.state next.now.entry) cell }
    ensures { OnOk result (turned.new.items ≡ turned.old.items ++ turned_under state.now.settings state.now.state (after state.now.settings state.now.state next.now.entry) next.now.entry cell) }
{
    let later = next.node(alloc, state, cell)?;
    turned.push(cell)?;
    for child in later.children.as_slice() {
        put_new(alloc, state, next, *child, turned)?;
    }
    Ok(())
}

// Whether the change has no effect within the cell.
fn is_untouched(state: &Super, next: &Next, places: &[u32], keys: &[u64], cell: Cell) -> bool
    requires prepared { IsFor state.now.settings state.now.state next.now }
    requires places { IsPlaces next.now.entry state.now.state.zones state.now.state.zones places.now }
    requires rising { IsNonDecreasing keys.now }
    requires level { cell.level ≤ 28 }
    ensures free { result ≡ true → is_free next.now.entry state.now.state.zones cell ≡ true }
    ensures keys { result ≡ true → filter (spans cell) keys.now ≡ [] }
{
    is_free(state, next, places, cell) && spanned(keys, cell).is_empty()
}

// Whether a node is the same before and after the change, where the state before has it.
fn is_same(state: &Super, next: &Next, places: &[u32], before: &Node, later: &Node) -> bool
    requires prepared { IsFor state.now.settings state.now.state next.now }
    requires places { IsPlaces next.now.entry state.now.state.zones state.now.state.zones places.now }
    ensures { result ≡ (same_cells before.now.leaves later.now.leaves && same_cells before.now.children later.now.children && list_all (is_free next.now.entry state.now.state.zones) later.now.leaves) }
{
    same_cells(before.leaves.as_slice(), later.leaves.as_slice())
        && same_cells(before.children.as_slice(), later.children.as_slice())
        && are_free(state, next, places, later.leaves.as_slice())
}

fn are_free(state: &Super, next: &Next, places: &[u32], cells: &[Cell]) -> bool
    requires prepared { IsFor state.now.settings state.now.state next.now }
    requires places { IsPlaces next.now.entry state.now.state.zones state.now.state.zones places.now }
    ensures { result ≡ list_all (is_free next.now.entry state.now.state.zones) cells.now }
{
    for cell in cells {
        if !is_free(state, next, places, *cell) {
            return false;
        }
    }
    true
}

// Whether the changed zone is Outside on the cell before and after the change, where these are its places.
fn is_free(state: &Super, next: &Next, places: &[u32], cell: Cell) -> bool
    requires prepared { IsFor state.now.settings state.now.state next.now }
    requires places { IsPlaces next.now.entry state.now.state.zones state.now.state.zones places.now }
    ensures { result ≡ is_free next.now.entry state.now.state.zones cell }
{
    for place in places {
        if is_on(state.zone_class(*place, cell)) {
            return false;
        }
    }
    match next.class_on(cell) {
        Some(class) => !is_on(class),
        None => true,
    }
}

#[inline]
fn is_on(class: Class) -> bool
    ensures { result ≡ is_on class }
{
    match class {
        Class::Outside => false,
        _ => true,
    }
}

fn same_cells(cells: &[Cell], others: &[Cell]) -> bool
    ensures { result ≡ same_cells cells.now others.now }
{
    if cells.len() != others.len() {
        return false;
    }
    for i in 0..cells.len() {
        if cells[i] != others[i] {
            return false;
        }
    }
    true
}

fn is_among(cells: &[Cell], cell: Cell) -> bool
    ensures { result ≡ is_among cells.now cell }
{
    for other in cells {
        if *other == cell {
            return true;
        }
    }
    false
}

// The places of the zones with the changed key: there is one, or none.
fn places_of(alloc: Global, state: &Super, next: &Next) -> Result<Vec<u32>, AllocError>
    ensures { IfOk result (λ places. IsPlaces next.now.entry state.now.state.zones state.now.state.zones places.items) }
{
    let mut places = Vec::new(alloc);
    let Some(key) = next.key() else {
        return Ok(places);
    };
    for i in 0..state.zones() {
        if state.zone_key(i) == key {
            places.push(i)?;
        }
    }
    Ok(places)
}

// Keys of the cells that are trained in one of the states alone, in ascending order.
fn keys_of(alloc: Global, state: &Super, next: &Next) -> Result<Vec<u64>, AllocError>
    requires { IsFor state.now.settings state.now.state next.now }
    ensures tell { IfOk result (λ keys. KeysTell state.now.state (after state.now.settings state.now.state next.now.entry) keys.items) }
    ensures rising { IfOk result (λ keys. IsNonDecreasing keys.items) }
{
    let mut keys = ids_of(alloc, rest_of(state.trained(), next.trained()))?;
    keys.sort_unstable();
    Ok(keys)
}

// What the longer one of two lists has behind as many cells as the shorter one has.
fn rest_of<'a>(cells: &'a [Cell], others: &'a [Cell]) -> &'a [Cell]
    ensures { result.now ≡ cond (nat_lt (length cells.now) (length others.now)) (drop (length cells.now) others.now) (drop (length others.now) cells.now) }
{
    if cells.len() < others.len() {
        &others[cells.len()..]
    } else {
        &cells[others.len()..]
    }
}

// The ids of the cells of level 30 that hold the first points of these cells.
fn ids_of(alloc: Global, cells: &[Cell]) -> Result<Vec<u64>, AllocError>
    ensures { IfOk result (λ ids. StandFor ids.items (map (λ c. (hull_of c).lo) cells.now)) }
{
    let mut ids = Vec::with_capacity(alloc, cells.len())?;
    for cell in cells {
        ids.push(Cell::leaf(cell.hull().lo).id())?;
    }
    Ok(ids)
}

// The keys in the span of the cell, found by halving.
fn spanned(keys: &[u64], cell: Cell) -> &[u64]
    requires level { cell.level ≤ 28 }
    requires rising { IsNonDecreasing keys.now }
    ensures { result.now ≡ filter (spans cell) keys.now }
{
    let half = 1u64 << (60 - 2 * cell.level());
    let id = cell.id();
    let behind = &keys[below(keys, id - half)..];
    &behind[..below(behind, id + half)]
}

// How many of the keys are below a bound.
fn below(keys: &[u64], bound: u64) -> usize
    requires { IsNonDecreasing keys.now }
    ensures within { result ≤ length keys.now }
    ensures front { take result keys.now ≡ filter (λ key. nat_lt key bound) keys.now }
    ensures back { drop result keys.now ≡ filter (λ key. nat_le bound key) keys.now }
{
    keys.partition_point(|key| *key < bound)
}
