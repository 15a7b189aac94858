//! Laws of coverings, each the contract of a function that does nothing.

ghost use Rattle.std.specs.Prelude.{◌≡◌, ℕ, ◌<◌, ◌≤◌, List, true, length, map};
ghost use Rattle.std.specs.List.{Contains};
ghost use Rattle.act_grid.specs.declared.Point.{Point};
ghost use Rattle.act_grid.specs.Hull.{IsIn};
ghost use Rattle.act_grid.specs.Cell.{Address, id_of, hull_of, root_cell};
ghost use Rattle.act_geom.specs.Inside.{is_inside};
ghost use Rattle.act_cover.specs.Covering.{cells_at};
ghost use Rattle.act_cover.specs.Level.{level_of, covering_of, interior_of};
ghost use Rattle.act_cover.specs.Order.{IsAscending};

/// The level is at most 28, and the greatest to which each level has at most so many cells.
pub fn level_is_the_greatest()
    ensures deep { (rings : List (List Point)) (most : ℕ) → level_of rings most ≤ 28 }
    ensures fits { (rings : List (List Point)) (most l : ℕ) → 1 ≤ most → l ≤ level_of rings most → length (cells_at rings l) ≤ most }
    ensures greatest { (rings : List (List Point)) (most m : ℕ) → m ≤ 28 → ((l : ℕ) → l ≤ m → length (cells_at rings l) ≤ most) → m ≤ level_of rings most }
{}

/// Each point inside the shape lies in a cell of the covering.
pub fn covering_holds_the_inside()
    ensures { (rings : List (List Point)) (most : ℕ) (p : Point) → IsIn (hull_of root_cell) p → is_inside rings p ≡ true → (c : Address) × Contains (covering_of rings most) c × IsIn (hull_of c) p }
{}

/// Each point of a cell of the interior covering is inside the shape.
pub fn interior_is_inside()
    ensures { (rings : List (List Point)) (most : ℕ) (c : Address) (p : Point) → Contains (interior_of rings most) c → IsIn (hull_of c) p → is_inside rings p ≡ true }
{}

/// The cells of a covering stand by ascending ids.
pub fn ids_ascend()
    ensures covering { (rings : List (List Point)) (most : ℕ) → IsAscending (map id_of (covering_of rings most)) }
    ensures interior { (rings : List (List Point)) (most : ℕ) → IsAscending (map id_of (interior_of rings most)) }
{}
