//! Whether there is room for zones.

ghost use Rattle.std.specs.Prelude.{◌≡◌, ℕ, ◌⊎◌, ◌+◌, ◌*◌, ◌^◌, ◌<◌, ◌≤◌, IfErr, IfOk, None, Some, [], length, sum_by};
ghost use Rattle.act_super.specs.declared.standing.Standing.{Standing};
ghost use Rattle.act_super.specs.declared.verdict.Verdict.TheVariants.{NoMemory as Unfed};
ghost use Rattle.act_grid.specs.Cell.{root_cell};
ghost use Rattle.act_super.specs.Packs.{node_rows, reference_limit};
ghost use Rattle.act_super.specs.Shifts.{IsMost, IsShift, added};
ghost use Rattle.act_super.specs.Sizes.{chain_rows};
ghost use Rattle.act_super.specs.Trees.{most, under};
ghost use Rattle.act_super.specs.Sound.{spliced};
ghost use Rattle.act_super.specs.Standings.{standing_ground, standing_most, standing_rows, values};
ghost use Rattle.act_super.specs.States.{room_of};

use crate::below::frame_over;
use crate::both::{Shift, both};
use crate::gather::gathered;
use crate::marks::Marks;
use crate::narrow::{asks, is_on, part_on};
use crate::pack::Pack;
use crate::standing::Standing;
use crate::verdict::Verdict;
use crate::whole::{Found, whole};
use act_geom::Shape;
use act_grid::Cell;
use std::alloc::{AllocError, Global};

/// How many references a leaf may have.
const MOST_REFERENCES: u64 = 510;

/// The words of a body that stand in a row of a chain.
const CHAIN_WORDS: u64 = 255;

/// The rows that the standings before a place, perhaps one more, and those from that place or the next one on take
/// where no cell is trained, or why they are too many. What they take as they stand is given. It looks at what one zone
/// more or less changes alone.
pub(crate) fn room_in(
    alloc: Global,
    standings: &[Standing],
    from: usize,
    new: Option<&Standing>,
    to: usize,
    plain: u64,
    limit: u32,
) -> Result<u64, Verdict>
    requires from { from ≤ length standings.now }
    requires to { to ≤ length standings.now }
    requires step { (to ≡ from) ⊎ (to ≡ from + 1) }
    requires few { length standings.now < 2 ^ 32 }
    requires countable { length (spliced standings.now from new to) < 2 ^ 32 }
    requires plain { plain ≡ standing_rows [] standings.now }
    requires small { plain < 2 ^ 32 }
    requires most { standing_most standings.now ≤ reference_limit }
    ensures ok { IfOk result (λ rows. let zones = spliced standings.now from new.entry to in (rows ≡ standing_rows [] zones) × (room_of limit (standing_most zones) rows ≡ None)) }
    ensures err { IfErr result (λ why. let zones = spliced standings.now from new.entry to in (why ≡ Unfed) ⊎ (room_of limit (standing_most zones) (standing_rows [] zones) ≡ Some why)) }
{
    let Ok(others) = gathered(alloc, standings, from, None, to) else {
        return Err(Verdict::NoMemory);
    };
    let Ok(bare) = bare_in(alloc, standings, from, to, others.as_slice(), plain) else {
        return Err(Verdict::NoMemory);
    };
    let Some(zone) = new else {
        return verdict(bare, limit);
    };
    if bare.most > MOST_REFERENCES {
        let Ok(all) = gathered(alloc, standings, from, Some(zone), to) else {
            return Err(Verdict::NoMemory);
        };
        return room(alloc, all.as_slice(), limit);
    }
    let Ok(found) = more(alloc, others.as_slice(), zone, bare.rows) else {
        return Err(Verdict::NoMemory);
    };
    verdict(found, limit)
}

// What the others take of the standings, where at most one of these is left out.
fn bare_in(
    alloc: Global,
    standings: &[Standing],
    from: usize,
    to: usize,
    others: &[&Standing],
    plain: u64,
) -> Result<Found, AllocError>
    requires from { from ≤ length standings.now }
    requires to { to ≤ length standings.now }
    requires step { (to ≡ from) ⊎ (to ≡ from + 1) }
    requires few { length standings.now < 2 ^ 32 }
    requires others { values others.now ≡ spliced standings.now from None to }
    requires plain { plain ≡ standing_rows [] standings.now }
    requires small { plain < 2 ^ 32 }
    requires most { standing_most standings.now ≤ reference_limit }
    ensures rows { IfOk result (λ found. found.rows ≡ standing_rows [] (values others.now)) }
    ensures most { IfOk result (λ found. IsMost found.most (standing_most (values others.now))) }
    ensures few { IfOk result (λ found. found.most < 2 ^ 32) }
    ensures fits { IfOk result (λ found. found.rows < 2 ^ 60) }
{
    if to == from {
        return Ok(Found {
            rows: plain,
            most: 0,
        });
    }
    fewer(alloc, others, &standings[from], plain)
}

// What the zones take with one more.
fn more(
    alloc: Global,
    others: &[&Standing],
    zone: &Standing,
    rows: u64,
) -> Result<Found, AllocError>
    requires few { length others.now + 1 < 2 ^ 32 }
    requires rows { rows ≡ standing_rows [] (values others.now) }
    requires small { rows < 2 ^ 60 }
    requires most { standing_most (values others.now) ≤ reference_limit }
    ensures rows { IfOk result (λ found. found.rows ≡ standing_rows [] (added (values others.now) zone.now)) }
    ensures most { IfOk result (λ found. IsMost found.most (standing_most (added (values others.now) zone.now))) }
    ensures few { IfOk result (λ found. found.most < 2 ^ 32) }
{
    let none = Marks::new(alloc);
    let shift = shift_at_root(alloc, others, zone, &none)?;
    let chain = chain_rows(&zone.shape);
    let nodes = rows + shift.more - shift.less;
    Ok(Found {
        rows: nodes + chain,
        most: shift.with,
    })
}

// What the zones take without one.
fn fewer(
    alloc: Global,
    others: &[&Standing],
    zone: &Standing,
    rows: u64,
) -> Result<Found, AllocError>
    requires few { length others.now + 1 < 2 ^ 32 }
    requires rows { rows ≡ standing_rows [] (added (values others.now) zone.now) }
    requires small { rows < 2 ^ 32 }
    requires most { standing_most (added (values others.now) zone.now) ≤ reference_limit }
    ensures rows { IfOk result (λ found. found.rows ≡ standing_rows [] (values others.now)) }
    ensures most { IfOk result (λ found. IsMost found.most (standing_most (values others.now))) }
    ensures few { IfOk result (λ found. found.most < 2 ^ 32) }
    ensures fits { IfOk result (λ found. found.rows < 2 ^ 60) }
{
    let none = Marks::new(alloc);
    let shift = shift_at_root(alloc, others, zone, &none)?;
    let chain = chain_rows(&zone.shape);
    let nodes = rows - chain;
    Ok(Found {
        rows: nodes + shift.less - shift.more,
        most: shift.without,
    })
}

/// The rows that the standings before a place, perhaps one more, and those from that place or the next one on take with
/// these trained cells. What they take as they stand is given. It looks at what one zone more or less changes alone.
pub(crate) fn rows_in(
    alloc: Global,
    standings: &[Standing],
    from: usize,
    new: Option<&Standing>,
    to: usize,
    marks: &Marks,
    rows: u64,
) -> Result<u64, AllocError>
    requires from { from ≤ length standings.now }
    requires to { to ≤ length standings.now }
    requires step { (to ≡ from) ⊎ (to ≡ from + 1) }
    requires few { length standings.now < 2 ^ 32 }
    requires countable { length (spliced standings.now from new to) < 2 ^ 32 }
    requires rows { rows ≡ standing_rows marks.now standings.now }
    requires small { rows < 2 ^ 32 }
    ensures { IfOk result (λ rows. rows ≡ standing_rows marks.now (spliced standings.now from new.entry to)) }
{
    let others = gathered(alloc, standings, from, None, to)?;
    let bare = rows_bare(alloc, standings, from, to, others.as_slice(), marks, rows)?;
    match new {
        Some(zone) => rows_more(alloc, others.as_slice(), zone, marks, bare),
        None => Ok(bare),
    }
}

// The rows of the others of the standings, where at most one of these is left out.
fn rows_bare(
    alloc: Global,
    standings: &[Standing],
    from: usize,
    to: usize,
    others: &[&Standing],
    marks: &Marks,
    rows: u64,
) -> Result<u64, AllocError>
    requires from { from ≤ length standings.now }
    requires to { to ≤ length standings.now }
    requires step { (to ≡ from) ⊎ (to ≡ from + 1) }
    requires few { length standings.now < 2 ^ 32 }
    requires others { values others.now ≡ spliced standings.now from None to }
    requires rows { rows ≡ standing_rows marks.now standings.now }
    requires small { rows < 2 ^ 32 }
    ensures is { IfOk result (λ rows. rows ≡ standing_rows marks.now (values others.now)) }
    ensures fits { IfOk result (λ rows. rows < 2 ^ 60) }
{
    if to == from {
        return Ok(rows);
    }
    rows_fewer(alloc, others, &standings[from], marks, rows)
}

// The rows with one zone more.
fn rows_more(
    alloc: Global,
    others: &[&Standing],
    zone: &Standing,
    marks: &Marks,
    rows: u64,
) -> Result<u64, AllocError>
    requires few { length others.now + 1 < 2 ^ 32 }
    requires rows { rows ≡ standing_rows marks.now (values others.now) }
    requires small { rows < 2 ^ 60 }
    ensures { IfOk result (λ rows. rows ≡ standing_rows marks.now (added (values others.now) zone.now)) }
{
    let shift = shift_at_root(alloc, others, zone, marks)?;
    let nodes = rows + shift.more - shift.less;
    Ok(nodes + chain_rows(&zone.shape))
}

// The rows with one zone less.
fn rows_fewer(
    alloc: Global,
    others: &[&Standing],
    zone: &Standing,
    marks: &Marks,
    rows: u64,
) -> Result<u64, AllocError>
    requires few { length others.now + 1 < 2 ^ 32 }
    requires rows { rows ≡ standing_rows marks.now (added (values others.now) zone.now) }
    requires small { rows < 2 ^ 32 }
    ensures is { IfOk result (λ rows. rows ≡ standing_rows marks.now (values others.now)) }
    ensures fits { IfOk result (λ rows. rows < 2 ^ 60) }
{
    let shift = shift_at_root(alloc, others, zone, marks)?;
    let nodes = rows - chain_rows(&zone.shape);
    Ok(nodes + shift.less - shift.more)
}

// What one zone more changes of the rows of nodes and lists, and of the greatest number of references.
fn shift_at_root(
    alloc: Global,
    others: &[&Standing],
    zone: &Standing,
    marks: &Marks,
) -> Result<Shift, AllocError>
    requires { length others.now + 1 < 2 ^ 32 }
    ensures shift { IfOk result (λ shift. let old = under (standing_ground marks.now) (values others.now) root_cell in let new = under (standing_ground marks.now) (added (values others.now) zone.now) root_cell in IsShift (node_rows old) (node_rows new) (most old) (most new) shift) }
    ensures fits { IfOk result (λ shift. (shift.less < 2 ^ 58) × (shift.more < 2 ^ 58)) }
{
    let root = Cell::root();
    let class = zone.class_on(root, root.hull());
    if !is_on(class) {
        return Ok(Shift {
            less: 0,
            more: 0,
            without: 0,
            with: 0,
        });
    }
    let wanted = asks(zone, class, root.level(), marks.has(root));
    let top = part_on(alloc, others, marks, root)?;
    let mut old = Pack::empty();
    let mut new = Pack::empty();
    let shift = both(
        alloc,
        marks,
        4,
        top.zones.as_slice(),
        frame_over(top.zones.as_slice()),
        top.split,
        zone,
        wanted,
        root,
        &mut old,
        &mut new,
    )?;
    Ok(Shift {
        less: old.rows + shift.less,
        more: new.rows + shift.more,
        without: shift.without,
        with: shift.with,
    })
}

// The rows that were found, or why these or the references are too many.
fn verdict(found: Found, limit: u32) -> Result<u64, Verdict>
    requires { found.most < 2 ^ 32 }
    ensures ok { IfOk result (λ rows. (rows ≡ found.rows) × ((real : ℕ) → IsMost found.most real → room_of limit real found.rows ≡ None)) }
    ensures err { IfErr result (λ why. (real : ℕ) → IsMost found.most real → room_of limit real found.rows ≡ Some why) }
{
    if found.most > MOST_REFERENCES {
        return Err(Verdict::Refs {
            need: found.most as u32,
        });
    }
    if found.rows > u64::from(limit) {
        return Err(Verdict::Rows {
            need: found.rows,
            limit,
        });
    }
    Ok(found.rows)
}

// The rows that the zones take where no cell is trained, or why they are too many.
fn room(alloc: Global, zones: &[&Standing], limit: u32) -> Result<u64, Verdict>
    requires { length zones.now < 2 ^ 32 }
    ensures ok { IfOk result (λ rows. (rows ≡ standing_rows [] (values zones.now)) × (room_of limit (standing_most (values zones.now)) rows ≡ None)) }
    ensures err { IfErr result (λ why. (why ≡ Unfed) ⊎ (room_of limit (standing_most (values zones.now)) (standing_rows [] (values zones.now)) ≡ Some why)) }
{
    let none = Marks::new(alloc);
    let Ok(found) = measured(alloc, zones, &none) else {
        return Err(Verdict::NoMemory);
    };
    verdict(found, limit)
}

/// The rows that the zones take with these trained cells, and the greatest number of references of a leaf. It looks at
/// all cells of the super covering.
pub(crate) fn measured(
    alloc: Global,
    zones: &[&Standing],
    marks: &Marks,
) -> Result<Found, AllocError>
    requires { length zones.now < 2 ^ 32 }
    ensures rows { IfOk result (λ found. found.rows ≡ standing_rows marks.now (values zones.now)) }
    ensures most { IfOk result (λ found. found.most ≡ most (under (standing_ground marks.now) (values zones.now) root_cell)) }
    ensures few { IfOk result (λ found. found.most < 2 ^ 32) }
{
    let root = Cell::root();
    let top = part_on(alloc, zones, marks, root)?;
    let mut pack = Pack::empty();
    let below = whole(
        alloc,
        marks,
        4,
        top.zones.as_slice(),
        top.split,
        root,
        &mut pack,
    )?;
    let nodes = 1 + pack.rows + below.rows;
    let rows = nodes + chains(zones);
    Ok(Found {
        rows,
        most: below.most,
    })
}

// The rows of the chains of all the zones.
fn chains(zones: &[&Standing]) -> u64
    requires { length zones.now < 2 ^ 32 }
    ensures sum { result ≡ sum_by (λ (s : Standing). chain_rows s.shape) (values zones.now) }
    ensures fits { result < 2 ^ 60 }
{
    let mut rows = 0;
    for zone in zones {
        rows += chain_rows(&zone.shape);
    }
    rows
}

/// The rows of a shape's chain.
pub(crate) fn chain_rows(shape: &Shape) -> u64
    ensures is { result ≡ chain_rows shape.now }
    ensures fits { result < 2 ^ 26 }
{
    let words = 1 + u64::from(shape.rings()) + u64::from(shape.vertices());
    (words + (CHAIN_WORDS - 1)) / CHAIN_WORDS
}
