//! Which cells a training chooses.

ghost use Rattle.std.specs.Prelude.{◌≡◌, ◌*◌, ◌^◌, ◌<◌, ◌≤◌, ◌++◌, IfOk, OnOk, IsPermutation, IsSortedBy, count_by, drop, filter, length, nat_le, nat_lt, take};
ghost use Rattle.std.specs.List.Sorted.{IsNonDecreasing};
ghost use Rattle.act_grid.specs.Cell.{IsCell};
ghost use Rattle.act_cover.specs.Covering.{class_at};
ghost use Rattle.act_super.specs.Choices.{StandFor, cells_in, choice_of, choices_for, choices_of_four, choices_under, ranks_before, spans};
ghost use Rattle.act_super.specs.Grounds.{is_mixed};
ghost use Rattle.act_super.specs.Standings.{standing_ground, values};
ghost use Rattle.act_super.specs.Training.{chosen_among};

use crate::gather::gathered;
use crate::marks::Marks;
use crate::narrow::part_on;
use crate::standing::Standing;
use act_geom::Class;
use act_grid::{Cell, Point};
use std::alloc::{AllocError, Global};
use std::cmp::Reverse;

/// The deepest level of a leaf, which is never chosen.
const DEEPEST: u32 = 28;

/// A leaf with its cost: the sample points in it, times the zones that are Mixed on it.
#[derive(Clone, Copy, Debug, PartialEq, Eq)]
pub(crate) struct Choice {
    pub cost: u64,
    pub cell: Cell,
}

/// The leaves above level 28 whose cost for the sample is at least the threshold, by descending cost and then by
/// ascending id. It sorts the sample once, and looks then at the zones on each reached cell that holds a sample point,
/// once for the cell and once more where it is a leaf.
pub(crate) fn chosen_in(
    alloc: Global,
    standings: &[Standing],
    marks: &Marks,
    sample: &[Point],
    threshold: u32,
) -> Result<Vec<Cell>, AllocError>
    requires threshold { 1 ≤ threshold }
    requires few { length sample.now ≤ 65536 }
    requires standings { length standings.now < 2 ^ 32 }
    ensures { IfOk result (λ cells. cells.items ≡ chosen_among (standing_ground marks.now) standings.now sample.now threshold) }
{
    let last = standings.len();
    let zones = gathered(alloc, standings, last, None, last)?;
    let mut found = found_in(alloc, zones.as_slice(), marks, sample, threshold)?;
    rank(&mut found);
    let cells = cells_of(alloc, &found)?;
    Ok(cells)
}

// The choices, in Z order.
fn found_in(
    alloc: Global,
    zones: &[&Standing],
    marks: &Marks,
    sample: &[Point],
    threshold: u32,
) -> Result<Vec<Choice>, AllocError>
    requires threshold { 1 ≤ threshold }
    requires few { length sample.now ≤ 65536 }
    requires zones { length zones.now < 2 ^ 32 }
    ensures { IfOk result (λ found. found.items ≡ choices_for (standing_ground marks.now) (values zones.now) sample.now threshold) }
{
    let keys = keys_of(alloc, sample)?;
    let mut found = Vec::new(alloc);
    choose(
        alloc,
        marks,
        zones,
        keys.as_slice(),
        threshold,
        Cell::root(),
        &mut found,
    )?;
    Ok(found)
}

// Puts the choices among the leaves from a reached cell down. A cell of level 28 is never one, and where a cell spans
// no key its leaves cost 0: both take no look at the zones.
#[cycle(choose)]
fn choose(
    alloc: Global,
    marks: &Marks,
    zones: &[&Standing],
    keys: &[u64],
    threshold: u32,
    cell: Cell,
    found: &mut Vec<Choice>,
) -> Result<(), AllocError>
    requires level { cell.level ≤ 28 }
    requires cell { IsCell cell }
    requires rising { IsNonDecreasing keys.now }
    requires few { length keys.now ≤ 65536 }
    requires zones { length zones.now < 2 ^ 32 }
    requires threshold { 1 ≤ threshold }
    ensures { OnOk result (found.new.items ≡ found.old.items ++ choices_under (standing_ground marks.now) (values zones.now) keys.now threshold cell) }
{
    if cell.level() >= DEEPEST {
        return Ok(());
    }
    let here = spanned(keys, cell);
    if here.is_empty() {
        return Ok(());
    }
    let there = part_on(alloc, zones, marks, cell)?;
    if there.split {
        choose_four(
            alloc,
            marks,
            there.zones.as_slice(),
            here,
            threshold,
            cell,
            found,
        )?;
        return Ok(());
    }
    put(there.zones.as_slice(), here, threshold, cell, found)?;
    Ok(())
}

#[cycle(choose)]
fn choose_four(
    alloc: Global,
    marks: &Marks,
    zones: &[&Standing],
    keys: &[u64],
    threshold: u32,
    cell: Cell,
    found: &mut Vec<Choice>,
) -> Result<(), AllocError>
    requires level { cell.level < 28 }
    requires cell { IsCell cell }
    requires rising { IsNonDecreasing keys.now }
    requires few { length keys.now ≤ 65536 }
    requires zones { length zones.now < 2 ^ 32 }
    requires threshold { 1 ≤ threshold }
    ensures { OnOk result (found.new.items ≡ found.old.items ++ choices_of_four (standing_ground marks.now) (values zones.now) keys.now threshold cell) }
{
    choose(alloc, marks, zones, keys, threshold, cell.child(0), found)?;
    choose(alloc, marks, zones, keys, threshold, cell.child(1), found)?;
    choose(alloc, marks, zones, keys, threshold, cell.child(2), found)?;
    choose(alloc, marks, zones, keys, threshold, cell.child(3), found)?;
    Ok(())
}

// Puts a leaf, where its cost is at least the threshold. The zones are those on it, and the keys those that it spans.
fn put(
    zones: &[&Standing],
    keys: &[u64],
    threshold: u32,
    cell: Cell,
    found: &mut Vec<Choice>,
) -> Result<(), AllocError>
    requires level { cell.level < 28 }
    requires few { length keys.now ≤ 65536 }
    requires zones { length zones.now < 2 ^ 32 }
    ensures { OnOk result (found.new.items ≡ found.old.items ++ choice_of cell threshold (length keys.now * count_by (λ s. is_mixed (class_at s.shape cell)) (values zones.now))) }
{
    let cost = keys.len() as u64 * mixed_on(zones, cell) as u64;
    if cost >= u64::from(threshold) {
        found.push(Choice { cost, cell })?;
    }
    Ok(())
}

// How many of the zones are Mixed on the cell.
fn mixed_on(zones: &[&Standing], cell: Cell) -> usize
    ensures count { result ≡ count_by (λ s. is_mixed (class_at s.shape cell)) (values zones.now) }
    ensures few { result ≤ length zones.now }
{
    let hull = cell.hull();
    let mut count = 0;
    for zone in zones {
        count += usize::from(is_mixed(zone.class_on(cell, hull)));
    }
    count
}

fn is_mixed(class: Class) -> bool
    ensures { result ≡ is_mixed class }
{
    match class {
        Class::Mixed => true,
        _ => false,
    }
}

// The keys in the span of the cell, found by halving.
fn spanned(keys: &[u64], cell: Cell) -> &[u64]
    requires level { cell.level ≤ 28 }
    requires rising { IsNonDecreasing keys.now }
    ensures spans { result.now ≡ filter (spans cell) keys.now }
    ensures rising { IsNonDecreasing result.now }
{
    let half = 1u64 << (60 - 2 * cell.level());
    let id = cell.id();
    let behind = &keys[below(keys, id - half)..];
    &behind[..below(behind, id + half)]
}

// How many of the keys are below a bound.
fn below(keys: &[u64], bound: u64) -> usize
    requires { IsNonDecreasing keys.now }
    ensures within { result ≤ length keys.now }
    ensures front { take result keys.now ≡ filter (λ key. nat_lt key bound) keys.now }
    ensures back { drop result keys.now ≡ filter (λ key. nat_le bound key) keys.now }
{
    keys.partition_point(|key| *key < bound)
}

// The ids of the cells of level 30 that hold the points, in ascending order.
fn keys_of(alloc: Global, sample: &[Point]) -> Result<Vec<u64>, AllocError>
    ensures stand { IfOk result (λ keys. StandFor keys.items sample.now) }
    ensures rising { IfOk result (λ keys. IsNonDecreasing keys.items) }
    ensures count { IfOk result (λ keys. length keys.items ≡ length sample.now) }
{
    let mut keys = ids_of(alloc, sample)?;
    keys.sort_unstable();
    Ok(keys)
}

fn ids_of(alloc: Global, sample: &[Point]) -> Result<Vec<u64>, AllocError>
    ensures stand { IfOk result (λ ids. StandFor ids.items sample.now) }
    ensures count { IfOk result (λ ids. length ids.items ≡ length sample.now) }
{
    let mut ids = Vec::with_capacity(alloc, sample.len())?;
    for p in sample {
        ids.push(Cell::leaf(*p).id())?;
    }
    Ok(ids)
}

// Brings the choices into the order of training.
fn rank(found: &mut Vec<Choice>)
    ensures same { IsPermutation found.old.items found.new.items }
    ensures ranked { IsSortedBy ranks_before found.new.items }
{
    found.sort_unstable_by_key(|choice| (Reverse(choice.cost), choice.cell.id()));
}

fn cells_of(alloc: Global, choices: &[Choice]) -> Result<Vec<Cell>, AllocError>
    ensures { IfOk result (λ cells. cells.items ≡ cells_in choices.now) }
{
    let mut cells = Vec::with_capacity(alloc, choices.len())?;
    for choice in choices {
        cells.push(choice.cell)?;
    }
    Ok(cells)
}
