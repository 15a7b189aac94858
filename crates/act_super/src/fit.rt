//! The Fit of trained cells.

ghost use Rattle.std.specs.Prelude.{◌≡◌, ℕ, ◌⊎◌, ◌+◌, ◌*◌, ◌^◌, ◌<◌, ◌≤◌, [], IfOk, IfSome, List, length, take, true};
ghost use Rattle.act_grid.specs.Cell.{Address};
ghost use Rattle.act_super.specs.Losses.{AreAmong};
ghost use Rattle.act_super.specs.Sound.{IsFit, IsStart, spliced};
ghost use Rattle.act_super.specs.Standings.{standing_rows, values};
ghost use Rattle.act_super.specs.Training.{most_trained};

use crate::gather::gathered;
use crate::grow::rows_grown;
use crate::lost::rows_lost;
use crate::marks::Marks;
use crate::room::{measured, rows_in};
use crate::standing::Standing;
use act_grid::Cell;
use std::alloc::{AllocError, Global};

/// The rows that one more split cell adds at most.
const SPLIT_ROWS: u64 = 5;

/// How many cells may be trained.
const MOST_TRAINED: usize = 65_536;

/// How many portions of the cells are tried.
const MOST_PORTIONS: usize = 64;

/// The least portion: fewer cells are taken one by one.
const LEAST_PORTION: usize = 16;

/// Trained cells, and the rows that the zones take with them.
#[derive(Drop)]
pub(crate) struct Fitted {
    pub marks: Marks,
    pub rows: u64,
}

/// The trained cells that fit where one zone is put or left out, and the rows that the zones take then: the rows before
/// it with the trained cells are given, and those after it with none. Where there is room for all that the cells may add
/// at most, it looks at what the zone changes alone, and else once at the cells with three zones or more, mostly.
pub(crate) fn fit_in(
    alloc: Global,
    standings: &[Standing],
    from: usize,
    new: Option<&Standing>,
    to: usize,
    marks: &Marks,
    size: u64,
    plain: u64,
    limit: u32,
) -> Result<Fitted, AllocError>
    requires from { from ≤ length standings.now }
    requires to { to ≤ length standings.now }
    requires step { (to ≡ from) ⊎ (to ≡ from + 1) }
    requires few { length standings.now < 2 ^ 32 }
    requires countable { length (spliced standings.now from new to) < 2 ^ 32 }
    requires size { size ≡ standing_rows marks.now standings.now }
    requires small { size < 2 ^ 32 }
    requires plain { plain ≡ standing_rows [] (spliced standings.now from new to) }
    requires room { plain ≤ limit }
    ensures fit { IfOk result (λ fitted. IsFit limit (spliced standings.now from new.entry to) marks.now fitted.marks) }
    ensures rows { IfOk result (λ fitted. fitted.rows ≡ standing_rows fitted.marks (spliced standings.now from new.entry to)) }
{
    let cells = marks.as_slice();
    let sure = sure_count(plain, limit, cells.len());
    if cells.is_empty() {
        return Ok(Fitted {
            marks: Marks::new(alloc),
            rows: plain,
        });
    }
    let rows = rows_in(alloc, standings, from, new, to, marks, size)?;
    if sure == cells.len() {
        return Ok(Fitted {
            marks: Marks::of(alloc, cells)?,
            rows,
        });
    }
    let zones = gathered(alloc, standings, from, new, to)?;
    let whole = fits_whole(alloc, zones.as_slice(), marks, rows, limit)?;
    if whole {
        return Ok(Fitted {
            marks: Marks::of(alloc, cells)?,
            rows,
        });
    }
    longest(alloc, zones.as_slice(), cells, sure, limit)
}

/// How many of the cells fit in any case, by what each adds at most.
pub(crate) fn sure_count(plain: u64, limit: u32, cells: usize) -> usize
    requires { plain ≤ limit }
    ensures within { result ≤ cells }
    ensures few { result ≤ most_trained }
    ensures fits { plain + 5 * result ≤ limit }
{
    let room = (u64::from(limit) - plain) / SPLIT_ROWS;
    (room as usize).min(cells).min(MOST_TRAINED)
}

/// Whether all the cells fit, each list of the first of them too.
fn fits_whole(
    alloc: Global,
    zones: &[&Standing],
    marks: &Marks,
    rows: u64,
    limit: u32,
) -> Result<bool, AllocError>
    requires rows { rows ≡ standing_rows marks.now (values zones.now) }
    ensures { IfOk result (λ fit. fit ≡ true → IsFit limit (values zones.now) marks.now marks.now) }
{
    let count = marks.as_slice().len();
    if count > MOST_TRAINED {
        return Ok(false);
    }
    let none = Marks::new(alloc);
    let fit = all_fit(alloc, zones, &none, marks, rows, limit)?;
    Ok(fit)
}

/// Whether all lists of cells fit on the way from the old ones to these: where they surely take no more rows than these
/// and the rows that fall away after them.
fn all_fit(
    alloc: Global,
    zones: &[&Standing],
    old: &Marks,
    marks: &Marks,
    rows: u64,
    limit: u32,
) -> Result<bool, AllocError>
    requires rows { rows ≡ standing_rows marks.now (values zones.now) }
    ensures { IfOk result (λ fit. fit ≡ true → (some : List Address) → AreAmong old.now some → AreAmong some marks.now → standing_rows some (values zones.now) ≤ limit) }
{
    let limit = u64::from(limit);
    if rows > limit {
        return Ok(false);
    }
    let lost = rows_lost(alloc, zones, old, marks)?;
    Ok(rows + lost <= limit)
}

/// The cells that fit, and the rows that the zones take with them. So many of the cells are known to fit. It takes as
/// many more as it can in portions, each by what it adds as a whole, and the last ones one by one.
pub(crate) fn longest(
    alloc: Global,
    zones: &[&Standing],
    cells: &[Cell],
    sure: usize,
    limit: u32,
) -> Result<Fitted, AllocError>
    requires few { length zones.now < 2 ^ 32 }
    requires within { sure ≤ length cells.now }
    requires trained { sure ≤ most_trained }
    requires sure { (n : ℕ) → n ≤ sure → standing_rows (take n cells.now) (values zones.now) ≤ limit }
    ensures fit { IfOk result (λ fitted. IsFit limit (values zones.now) cells.now fitted.marks) }
    ensures from { IfOk result (λ fitted. sure ≤ length fitted.marks) }
    ensures rows { IfOk result (λ fitted. fitted.rows ≡ standing_rows fitted.marks (values zones.now)) }
{
    let start = by_portions(alloc, zones, cells, sure, limit)?;
    let fitted = one_by_one(alloc, zones, cells, start, limit)?;
    Ok(fitted)
}

// So many of the cells, and more as far as portions of them surely fit. A portion that may not fit is halved.
fn by_portions(
    alloc: Global,
    zones: &[&Standing],
    cells: &[Cell],
    sure: usize,
    limit: u32,
) -> Result<Fitted, AllocError>
    requires few { length zones.now < 2 ^ 32 }
    requires within { sure ≤ length cells.now }
    requires trained { sure ≤ most_trained }
    requires sure { (n : ℕ) → n ≤ sure → standing_rows (take n cells.now) (values zones.now) ≤ limit }
    ensures start { IfOk result (λ fitted. IsStart limit (values zones.now) cells.now fitted.marks) }
    ensures from { IfOk result (λ fitted. sure ≤ length fitted.marks) }
    ensures rows { IfOk result (λ fitted. fitted.rows ≡ standing_rows fitted.marks (values zones.now)) }
{
    let mut fitted = first_of(alloc, zones, cells, sure)?;
    let last = cells.len().min(MOST_TRAINED);
    let mut count = sure;
    let mut portion = last - sure;
    for _round in 0..MOST_PORTIONS {
        if portion < LEAST_PORTION {
            return Ok(fitted);
        }
        let next = count + portion;
        let found = portion_to(alloc, zones, &fitted.marks, cells, next, limit)?;
        let Some(more) = found else {
            portion = portion / 2;
            continue;
        };
        fitted = more;
        count = next;
        portion = portion.min(last - next);
    }
    Ok(fitted)
}

// So many of the cells, where each list of the first of them fits that has the old ones.
fn portion_to(
    alloc: Global,
    zones: &[&Standing],
    old: &Marks,
    cells: &[Cell],
    count: usize,
    limit: u32,
) -> Result<Option<Fitted>, AllocError>
    requires few { length zones.now < 2 ^ 32 }
    requires within { count ≤ length cells.now }
    ensures marks { IfOk result (λ found. IfSome found (λ fitted. fitted.marks ≡ take count cells.now)) }
    ensures rows { IfOk result (λ found. IfSome found (λ fitted. fitted.rows ≡ standing_rows (take count cells.now) (values zones.now))) }
    ensures each { IfOk result (λ found. IfSome found (λ fitted. (some : List Address) → AreAmong old.now some → AreAmong some (take count cells.now) → standing_rows some (values zones.now) ≤ limit)) }
{
    let fitted = first_of(alloc, zones, cells, count)?;
    let fit = all_fit(alloc, zones, old, &fitted.marks, fitted.rows, limit)?;
    if !fit {
        return Ok(None);
    }
    Ok(Some(fitted))
}

// The cells that fit from these on. For each further cell it looks at those on the way to it.
fn one_by_one(
    alloc: Global,
    zones: &[&Standing],
    cells: &[Cell],
    start: Fitted,
    limit: u32,
) -> Result<Fitted, AllocError>
    requires few { length zones.now < 2 ^ 32 }
    requires start { IsStart limit (values zones.now) cells.now start.marks }
    requires rows { start.rows ≡ standing_rows start.marks (values zones.now) }
    ensures fit { IfOk result (λ fitted. IsFit limit (values zones.now) cells.now fitted.marks) }
    ensures from { IfOk result (λ fitted. length start.marks ≤ length fitted.marks) }
    ensures rows { IfOk result (λ fitted. fitted.rows ≡ standing_rows fitted.marks (values zones.now)) }
{
    let mut marks = start.marks;
    let mut rows = start.rows;
    let mut more = Marks::of(alloc, marks.as_slice())?;
    let first = marks.as_slice().len();
    let last = cells.len().min(MOST_TRAINED);
    for count in first..last {
        let fresh = cells[count];
        more.push(fresh)?;
        let found = rows_grown(alloc, zones, &marks, &more, fresh, rows)?;
        if found > u64::from(limit) {
            return Ok(Fitted { marks, rows });
        }
        marks.push(fresh)?;
        rows = found;
    }
    Ok(Fitted { marks, rows })
}

// So many of the cells, and the rows that the zones take with them.
fn first_of(
    alloc: Global,
    zones: &[&Standing],
    cells: &[Cell],
    count: usize,
) -> Result<Fitted, AllocError>
    requires few { length zones.now < 2 ^ 32 }
    requires within { count ≤ length cells.now }
    ensures marks { IfOk result (λ fitted. fitted.marks ≡ take count cells.now) }
    ensures rows { IfOk result (λ fitted. fitted.rows ≡ standing_rows (take count cells.now) (values zones.now)) }
{
    let marks = Marks::of(alloc, &cells[..count])?;
    let found = measured(alloc, zones, &marks)?;
    Ok(Fitted {
        marks,
        rows: found.rows,
    })
}
