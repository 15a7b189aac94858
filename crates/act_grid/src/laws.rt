//! Laws of cells, each the contract of a function that does nothing.

ghost use Rattle.act_grid.specs.CellLaws.{ChildLiesWithin, ChildrenCover, ALevelHasOneCell};
ghost use Rattle.act_grid.specs.CellLaws.{SharedPointMakesPart, PartLiesWithin, OneComesBefore};
ghost use Rattle.act_grid.specs.CellLaws.{IdsHaveZOrder, IdsDiffer, SlotIsItsEntries};

/// The grid points of a child are grid points of its parent.
pub fn child_lies_within()
    ensures { ChildLiesWithin }
{}

/// Each grid point of a cell lies in one of its children.
pub fn children_cover()
    ensures { ChildrenCover }
{}

/// Two cells of a level that hold the same point are the same.
pub fn a_level_has_one_cell()
    ensures { ALevelHasOneCell }
{}

/// Where neither of two cells is part of the other, they share no point, and one comes before the
/// other in Z order.
pub fn apart_or_part()
    ensures part { SharedPointMakesPart }
    ensures within { PartLiesWithin }
    ensures order { OneComesBefore }
{}

/// The ids of cells that don't overlap have Z order.
pub fn ids_have_z_order()
    ensures { IdsHaveZOrder }
{}

/// Two cells with one id are the same.
pub fn ids_differ()
    ensures { IdsDiffer }
{}

/// The entries of its slot are those whose cells are part of the cell.
pub fn slot_is_its_entries()
    ensures { SlotIsItsEntries }
{}
