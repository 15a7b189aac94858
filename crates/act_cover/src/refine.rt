//! From the cells of one level to those of the next.

ghost use Rattle.std.specs.Prelude.{◌≡◌, ◌+◌, ◌<◌, ◌≤◌, [], ◌∷◌, length};
ghost use Rattle.std.specs.List.{All, flat_map};
ghost use Rattle.act_cover.specs.declared.held.Held.{Held};
ghost use Rattle.act_cover.specs.Covering.{children_of, cells_on, is_on, refined};
ghost use Rattle.act_cover.specs.Held.{IsReached, IsTrueOf, Puts, cells_of};

use crate::classes::Classes;
use crate::frontier::Frontier;
use crate::held::Held;
use act_geom::Class;
use act_grid::Cell;

/// Puts a cell with its class, where it isn't Outside. False says that the budget has no room for it.
fn put<S: Classes>(shape: &S, cell: Cell, most: usize, next: &mut Frontier) -> bool
    requires most { most ≤ 1024 }
    requires held { All (IsTrueOf (S.rings shape.now)) next.old }
    ensures { Puts (S.rings shape.now) most next.old next.new (cells_on (S.rings shape.now) (cell ∷ [])) result }
{
    let class = shape.class_at(cell);
    if !is_on(class) {
        return true;
    }
    put_held(shape, Held { cell, class }, most, next)
}

// Whether the class isn't Outside.
fn is_on(class: Class) -> bool
    ensures { result ≡ is_on class }
{
    match class {
        Class::Inside => true,
        Class::Outside => false,
        Class::Mixed => true,
    }
}

/// Puts what is held of a cell. False says that the budget has no room for it.
fn put_held<S: Classes>(shape: &S, held: Held, most: usize, next: &mut Frontier) -> bool
    requires most { most ≤ 1024 }
    requires held { All (IsTrueOf (S.rings shape.now)) next.old }
    requires is { IsTrueOf (S.rings shape.now) held }
    ensures { Puts (S.rings shape.now) most next.old next.new (held.cell ∷ []) result }
{
    if next.len() >= most {
        return false;
    }
    next.push(held);
    true
}

/// Puts the children that aren't Outside.
fn put_children<S: Classes>(shape: &S, parent: Cell, most: usize, next: &mut Frontier) -> bool
    requires most { most ≤ 1024 }
    requires held { All (IsTrueOf (S.rings shape.now)) next.old }
    requires level { parent.level < 30 }
    ensures { Puts (S.rings shape.now) most next.old next.new (cells_on (S.rings shape.now) (children_of parent)) result }
{
    for q in 0..4 {
        if !put(shape, parent.child(q), most, next) {
            return false;
        }
    }
    true
}

/// Puts what the cell gives way to.
fn put_refined<S: Classes>(shape: &S, held: Held, most: usize, next: &mut Frontier) -> bool
    requires most { most ≤ 1024 }
    requires held { All (IsTrueOf (S.rings shape.now)) next.old }
    requires level { held.cell.level < 30 }
    requires is { IsTrueOf (S.rings shape.now) held }
    ensures { Puts (S.rings shape.now) most next.old next.new (refined (S.rings shape.now) held.cell) result }
{
    match held.class {
        Class::Inside => put_held(shape, held, most, next),
        Class::Outside => true,
        Class::Mixed => put_children(shape, held.cell, most, next),
    }
}

/// Puts the root cell, where it isn't Outside.
pub(crate) fn put_root<S: Classes>(shape: &S, cells: &mut Frontier)
    requires empty { cells.old ≡ [] }
    ensures { IsReached (S.rings shape.now) 0 cells.new }
{
    put(shape, Cell::root(), 1, cells);
}

/// Puts what the cells give way to.
pub(crate) fn put_all<S: Classes>(shape: &S, now: &[Held], most: usize, next: &mut Frontier) -> bool
    requires most { most ≤ 1024 }
    requires empty { next.old ≡ [] }
    requires level { All (λ (h : Held). h.cell.level < 30) now.now }
    requires is { All (IsTrueOf (S.rings shape.now)) now.now }
    ensures { Puts (S.rings shape.now) most [] next.new (flat_map (refined (S.rings shape.now)) (cells_of now.now)) result }
{
    for held in now {
        if !put_refined(shape, *held, most, next) {
            return false;
        }
    }
    true
}
