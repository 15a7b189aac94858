//! References of leaves.

ghost use Rattle.std.specs.Prelude.{◌≡◌, ◌++◌, [], ◌∷◌, OnOk, length};
ghost use Rattle.act_grid.specs.Cell.{hull_of};
ghost use Rattle.act_cover.specs.Covering.{is_within, is_on};
ghost use Rattle.act_super.specs.Places.{zones_with};
ghost use Rattle.act_super.specs.Sizes.{refs_of};
ghost use Rattle.act_super.specs.Standings.{shapes_in};

use crate::narrow::is_on;
use crate::standing::Standing;
use act_geom::Class;
use act_grid::{Cell, Hull};
use std::alloc::AllocError;
use std::marker::Model;

/// A reference of a leaf to a zone that isn't Outside on it.
#[derive(Clone, Copy, Debug, PartialEq, Eq)]
pub struct ZoneRef {
    /// The zone's key.
    pub key: u32,
    /// Whether the zone is Inside on the leaf, so that it holds each grid point of the leaf. A zone that is Mixed has
    /// to be tested.
    pub hit: bool,
}

/// A list of references, by ascending key. Contracts see it as the list.
#[derive(Debug, Drop)]
pub struct ZoneRefs {
    refs: Vec<ZoneRef>,
}

impl Model for ZoneRefs {
    ghost use Rattle.std.specs.Prelude.{List};
    ghost use Rattle.act_super.specs.declared.refs.ZoneRef.{ZoneRef};

    ghost Value = { List ZoneRef };

    ghost view = { λ r. r.refs.items };
}

impl ZoneRefs {
    ghost use Rattle.std.specs.Prelude.{◌≡◌};
    ghost use Rattle.std.specs.Borrow.{sem};
    ghost use Rattle.act_super.specs.Lending.{LendsItems};

    /// The references of the vector.
    pub fn from_vec(items: Vec<ZoneRef>) -> ZoneRefs
        ensures { result ≡ items.items }
    {
        ZoneRefs { refs: items }
    }

    /// The vector of the references.
    pub fn into_vec(self) -> Vec<ZoneRef>
        ensures { result.items ≡ self }
    {
        self.refs
    }

    /// The references, for reading.
    pub fn as_slice(&self) -> &[ZoneRef]
        ensures { result.now ≡ self.now }
    {
        &self.refs
    }

    /// The vector, for changes. The list is what is left in it.
    pub fn vec_mut(&mut self) -> &mut Vec<ZoneRef>
        ensures* writes_back { sem 𝓛 (LendsItems self.entry result) }
        ensures value { result.now.items ≡ self.old }
    {
        &mut self.refs
    }
}

/// Puts the references of a cell to these zones.
pub(crate) fn push_refs(
    refs: &mut Vec<ZoneRef>,
    keys: &[u32],
    standings: &[Standing],
    cell: Cell,
) -> Result<(), AllocError>
    requires { length standings.now ≡ length keys.now }
    ensures { OnOk result (refs.new.items ≡ refs.old.items ++ refs_of (zones_with keys.now (shapes_in standings.now)) cell) }
{
    let hull = cell.hull();
    for i in 0..keys.len() {
        push_ref(refs, keys[i], &standings[i], cell, hull)?;
    }
    Ok(())
}

/// Puts the reference of a cell, whose hull is given, to a zone, where it isn't Outside.
pub(crate) fn push_ref(
    refs: &mut Vec<ZoneRef>,
    key: u32,
    zone: &Standing,
    cell: Cell,
    hull: Hull,
) -> Result<(), AllocError>
    requires { hull ≡ hull_of cell }
    ensures { OnOk result (refs.new.items ≡ refs.old.items ++ refs_of (record { key = key; shape = zone.now.shape } ∷ []) cell) }
{
    let class = zone.class_on(cell, hull);
    if !is_on(class) {
        return Ok(());
    }
    let hit = is_within(class);
    refs.push(ZoneRef { key, hit })?;
    Ok(())
}

fn is_within(class: Class) -> bool
    ensures { result ≡ is_within class }
{
    match class {
        Class::Inside => true,
        _ => false,
    }
}
