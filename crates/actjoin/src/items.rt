//! The items of the demo's script.

ghost use Rattle.std.specs.Prelude.{◌≡◌, ◌≤◌, ◌<◌, IfOk};
ghost use Rattle.actjoin.specs.Demo.{at, drop_item, point_item, square, zone_item};

use act_geom::Shape;
use act_grid::{NoMemory, Point};
use act_script::Item;
use std::alloc::Global;

/// The side of a zone, in grid units.
const ZONE_SIDE: u32 = 1000;

/// From one point to the next, in grid units.
const POINT_STEP: u32 = 50;

/// A point of the grid, east and north of its middle.
fn at(x: u32, y: u32) -> Point
    requires { (x ≤ 2147483647) × (y ≤ 2147483647) }
    ensures { result ≡ at x y }
{
    Point {
        x: x as i32,
        y: y as i32,
    }
}

/// The square with this lower left corner, as a ring.
fn square(alloc: Global, x: u32, y: u32) -> Result<Shape, NoMemory>
    requires { (x ≤ 1000000) × (y ≤ 1000000) }
    ensures { IfOk result (λ shape. shape ≡ square x y) }
{
    let ring = [
        at(x, y),
        at(x + ZONE_SIDE, y),
        at(x + ZONE_SIDE, y + ZONE_SIDE),
        at(x, y + ZONE_SIDE),
    ];
    let mut shape = Shape::new(alloc);
    match shape.push_ring(&ring) {
        Ok(()) => Ok(shape),
        Err(_) => Err(NoMemory),
    }
}

/// The zone with this key, where so many stand a side: a square in its row, counted from below, and its column.
pub fn zone(alloc: Global, side: u32, key: u32) -> Result<Item, NoMemory>
    requires side { (1 ≤ side) × (side ≤ 16) }
    requires key { key < 256 }
    ensures { IfOk result (λ item. item ≡ zone_item side key) }
{
    let shape = square(alloc, ZONE_SIDE * (key % side), ZONE_SIDE * (key / side))?;
    Ok(Item::Zone { key, shape })
}

/// The point with this id, where so many zones stand a side.
pub fn point(side: u32, id: u32) -> Item
    requires side { (1 ≤ side) × (side ≤ 16) }
    requires id { id < 102400 }
    ensures { result ≡ point_item side id }
{
    let across = 20 * side;
    let x = POINT_STEP * (id % across) + POINT_STEP / 2;
    let y = POINT_STEP * (id / across) + POINT_STEP / 2;
    Item::At {
        id: id as u64,
        point: at(x, y),
    }
}

/// The drop of the odd key at this place among the odd keys.
pub fn drop_odd(place: u32) -> Item
    requires { place < 256 }
    ensures { result ≡ drop_item place }
{
    Item::DropZone { key: 2 * place + 1 }
}
