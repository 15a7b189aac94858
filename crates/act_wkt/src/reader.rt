//! The shape of a text.

ghost use Rattle.std.specs.Prelude.{◌≡◌, ◌≤◌, ◌<◌, ◌^◌, [], IfOk, length};
ghost use Rattle.act_wkt.specs.Grammar.{IsWkt};
ghost use Rattle.act_wkt.specs.Reading.{Answers, Found, Gives, Rings, with_front};
ghost use Rattle.act_wkt.specs.Wkt.{body_at, rings_of, wkt_of};

use crate::fault::{Stop, WktFault, WktKind};
use crate::rings::{read_polygon, read_polygons};
use crate::token::{Class, skipped, split_run};
use crate::words::{Geometry, is_dimension_word, named_geometry};
use act_geom::Shape;
use act_grid::Point;
use std::alloc::Global;

/// The points that a text may have, closing ones counted.
const MOST_POINTS: u32 = 262_144;

/// The shape of a text, or its first fault. Coordinates are in grid units, degrees times 10^`digits`.
///
/// The text is read once. Memory is taken for the shape, and for the points of its longest ring.
pub fn read(alloc: Global, text: &[u8], digits: u8) -> Result<Shape, WktFault>
    requires digits { digits ≤ 9 }
    requires length { length text.now < 2 ^ 32 }
    // It is the shape or the fault of the text.
    ensures exact { Answers result (wkt_of digits text.now) }
    // A shape is one of the grammar, and where the grammar has one, it is answered.
    ensures grammar { IfOk result (λ shape. IsWkt digits text.now shape) }
    ensures only { (rings : Rings) → IsWkt digits text.now rings → Answers result (Ok rings) }
{
    let mut shape = Shape::new(alloc);
    let mut points = Vec::new(alloc);
    match read_whole(text, digits, &mut points, &mut shape) {
        Ok(()) => Ok(shape),
        Err(Stop::At(miss)) => Err(WktFault::At {
            kind: miss.kind,
            place: text.len().saturating_sub(miss.left) as u32,
        }),
        Err(Stop::NoMemory) => Err(WktFault::NoMemory),
    }
}

/// Adds the rings of the text to the shape.
#[tactic(auto, unfolding(crate::specs::Wkt::rings_of))]
fn read_whole(
    text: &[u8],
    digits: u8,
    points: &mut Vec<Point>,
    shape: &mut Shape,
) -> Result<(), Stop>
    requires digits { digits ≤ 9 }
    requires empty { shape.old ≡ [] }
    ensures { Gives (λ _. shape.new) result (rings_of digits text.now) }
{
    let start = skipped(text);
    let (word, rest) = split_run(Class::Letter, start);
    let geometry = match named_geometry(word) {
        Ok(geometry) => geometry,
        Err(kind) => return Err(Stop::at(kind, start)),
    };
    let body = skipped(rest);
    let (word, _) = split_run(Class::Letter, body);
    if is_dimension_word(word) {
        return Err(Stop::at(WktKind::Dimension, body));
    }
    let (_, behind) = read_body(geometry, body, digits, points, shape)?;
    let end = skipped(behind);
    if !end.is_empty() {
        return Err(Stop::at(WktKind::Trailing, end));
    }
    Ok(())
}

/// Adds the rings that follow the first word to the shape, and answers the text behind them.
fn read_body<'a>(
    geometry: Geometry,
    text: &'a [u8],
    digits: u8,
    points: &mut Vec<Point>,
    shape: &mut Shape,
) -> Result<(u32, &'a [u8]), Stop>
    requires digits { digits ≤ 9 }
    requires empty { shape.old ≡ [] }
    ensures { Gives (λ found. record { rings = shape.new; room = found.0; rest = found.1.now }) result (body_at digits geometry 262144 text.now) }
{
    match geometry {
        Geometry::Polygon => read_polygon(text, digits, MOST_POINTS, points, shape),
        Geometry::Multi => read_polygons(text, digits, MOST_POINTS, points, shape),
    }
}
