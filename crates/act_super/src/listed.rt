//! Standings with the keys of their zones, read in place.

ghost use Rattle.std.specs.Prelude.{◌≡◌, ◌++◌, ◌≤◌, IfOk, OnOk, length};
ghost use Rattle.act_super.specs.Grounds.{is_split, on, some_asks};
ghost use Rattle.act_super.specs.Listings.{AreFramed, keys_in, listed_ground, refs_here, spliced_keys, standings_in};
ghost use Rattle.act_super.specs.Sound.{spliced};

use crate::frame::{no_frame, with_frame};
use crate::marks::Marks;
use crate::narrow::{asks, is_on};
use crate::refs::{ZoneRefs, push_ref};
use crate::standing::Standing;
use act_grid::{Cell, Hull};
use std::alloc::{AllocError, Global};

/// The deepest level of a leaf.
const DEEPEST: u32 = 28;

/// The key of a zone, and what stands of it.
#[derive(Clone, Copy)]
pub(crate) struct Listed<'a> {
    pub key: u32,
    pub zone: &'a Standing,
}

/// The zones that aren't Outside on a cell, with their keys, and whether the cell is split.
#[derive(Drop)]
pub(crate) struct ListedPart<'a> {
    pub zones: Vec<Listed<'a>>,
    pub split: bool,
}

/// The zones before a place, perhaps one more, and those from a place on.
pub(crate) fn all_listed<'a>(
    alloc: Global,
    keys: &[u32],
    standings: &'a [Standing],
    from: usize,
    key: u32,
    new: Option<&'a Standing>,
    to: usize,
) -> Result<Vec<Listed<'a>>, AllocError>
    requires lengths { length standings.now ≡ length keys.now }
    requires from { from ≤ length keys.now }
    requires to { to ≤ length keys.now }
    ensures keys { IfOk result (λ zones. keys_in zones.items ≡ spliced_keys keys.now from key new.entry to) }
    ensures standings { IfOk result (λ zones. standings_in zones.items ≡ spliced standings.now from new.entry to) }
{
    let mut zones = Vec::with_capacity(alloc, standings.len() + 1)?;
    push_all(&mut zones, &keys[..from], &standings[..from])?;
    if let Some(zone) = new {
        zones.push(Listed { key, zone })?;
    }
    push_all(&mut zones, &keys[to..], &standings[to..])?;
    Ok(zones)
}

fn push_all<'a>(
    zones: &mut Vec<Listed<'a>>,
    keys: &[u32],
    standings: &'a [Standing],
) -> Result<(), AllocError>
    requires { length standings.now ≡ length keys.now }
    ensures keys { OnOk result (keys_in zones.new.items ≡ keys_in zones.old.items ++ keys.now) }
    ensures standings { OnOk result (standings_in zones.new.items ≡ standings_in zones.old.items ++ standings.now) }
{
    for i in 0..keys.len() {
        zones.push(Listed {
            key: keys[i],
            zone: &standings[i],
        })?;
    }
    Ok(())
}

/// What of the zones is on the cell. It looks once at each zone.
pub(crate) fn listed_on<'a>(
    alloc: Global,
    zones: &[Listed<'a>],
    marks: &Marks,
    cell: Cell,
) -> Result<ListedPart<'a>, AllocError>
    ensures zones { IfOk result (λ part. part.zones.items ≡ on (listed_ground marks.now) zones.now cell) }
    ensures split { IfOk result (λ part. part.split ≡ is_split (listed_ground marks.now) zones.now cell) }
{
    let hull = cell.hull();
    let level = cell.level();
    let marked = marks.has(cell);
    let mut found = Vec::new(alloc);
    let mut asked = false;
    for one in zones {
        let class = one.zone.class_on(cell, hull);
        if is_on(class) {
            found.push(*one)?;
            asked = asked | asks(one.zone, class, level, marked);
        }
    }
    Ok(ListedPart {
        zones: found,
        split: (level < DEEPEST) & asked,
    })
}

/// Whether the cell is split. It looks at the zones up to the first that asks for it.
pub(crate) fn is_parted(zones: &[Listed], marks: &Marks, cell: Cell) -> bool
    ensures { result ≡ is_split (listed_ground marks.now) zones.now cell }
{
    cell.level() < DEEPEST && any_asks(zones, marks, cell)
}

fn any_asks(zones: &[Listed], marks: &Marks, cell: Cell) -> bool
    ensures { result ≡ some_asks (listed_ground marks.now) cell zones.now }
{
    let hull = cell.hull();
    let level = cell.level();
    let marked = marks.has(cell);
    for one in zones {
        if asks(one.zone, one.zone.class_on(cell, hull), level, marked) {
            return true;
        }
    }
    false
}

/// A box around all of these zones. It looks once at each.
pub(crate) fn frame_around(zones: &[Listed]) -> Hull
    ensures { AreFramed result zones.now }
{
    let mut frame = no_frame();
    for one in zones {
        frame = with_frame(frame, one.zone.frame);
    }
    frame
}

/// The references of a cell to these zones. It looks once at each zone.
pub(crate) fn refs_at(alloc: Global, zones: &[Listed], cell: Cell) -> Result<ZoneRefs, AllocError>
    ensures { IfOk result (λ refs. refs ≡ refs_here zones.now cell) }
{
    let hull = cell.hull();
    let mut refs = Vec::new(alloc);
    for one in zones {
        push_ref(&mut refs, one.key, one.zone, cell, hull)?;
    }
    Ok(ZoneRefs::from_vec(refs))
}
