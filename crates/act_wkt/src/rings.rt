//! The rings and polygons of a text.
//!
//! Each reader adds the rings that it finds to a shape, and answers how many points may still come in the text
//! and the text behind. A buffer for the points of one ring is handed through.

ghost use Rattle.std.specs.Prelude.{◌≡◌, ◌≤◌, ◌<◌, ◌+◌, ◌++◌, ◌∷◌, ℕ, [], IfOk, OnErr, OnOk, length};
ghost use Rattle.act_geom.specs.Rings.{vertices_of};
ghost use Rattle.act_wkt.specs.Reading.{Found, Gives, with_front};
ghost use Rattle.act_wkt.specs.Wkt.{empty_at, is_closed, polygon_at, polygons_at, ring_at, ring_of};

use crate::fault::{Stop, WktKind};
use crate::number::read_points;
use crate::token::{Class, is_first, is_the_word, skipped, split_run};
use act_geom::{PushFault, Shape};
use act_grid::Point;

/// The polygons that are due.
#[tactic(auto, unfolding(crate::specs::Wkt::polygons_at))]
pub(crate) fn read_polygons<'a>(
    text: &'a [u8],
    digits: u8,
    room: u32,
    points: &mut Vec<Point>,
    shape: &mut Shape,
) -> Result<(u32, &'a [u8]), Stop>
    requires digits { digits ≤ 9 }
    requires few { vertices_of shape.old + room ≤ 262144 }
    ensures found { Gives (λ found. record { rings = shape.new; room = found.0; rest = found.1.now }) result (with_front shape.old (polygons_at digits room text.now)) }
    ensures few { IfOk result (λ found. vertices_of shape.new + found.0 ≤ 262144) }
{
    let start = skipped(text);
    if !is_first(start, b'(') {
        return Ok((room, behind_empty(start)?));
    }
    let mut rest = &start[1..];
    let mut left = room;
    // Each item takes a byte at least.
    let mut turns = start.len();
    while turns > 0 {
        turns -= 1;
        let (after, behind) = read_polygon(rest, digits, left, points, shape)?;
        left = after;
        let behind = skipped(behind);
        if is_first(behind, b',') {
            rest = &behind[1..];
        } else if is_first(behind, b')') {
            return Ok((left, &behind[1..]));
        } else {
            return Err(Stop::at(WktKind::NoClose, behind));
        }
    }
    Err(Stop::at(WktKind::NoClose, rest))
}

/// The polygon that is due.
#[tactic(auto, unfolding(crate::specs::Wkt::polygon_at))]
pub(crate) fn read_polygon<'a>(
    text: &'a [u8],
    digits: u8,
    room: u32,
    points: &mut Vec<Point>,
    shape: &mut Shape,
) -> Result<(u32, &'a [u8]), Stop>
    requires digits { digits ≤ 9 }
    requires few { vertices_of shape.old + room ≤ 262144 }
    ensures found { Gives (λ found. record { rings = shape.new; room = found.0; rest = found.1.now }) result (with_front shape.old (polygon_at digits room text.now)) }
    ensures few { IfOk result (λ found. vertices_of shape.new + found.0 ≤ 262144) }
{
    let open = skipped(text);
    if !is_first(open, b'(') {
        return Ok((room, behind_empty(open)?));
    }
    let mut rest = &open[1..];
    let mut left = room;
    // Each item takes a byte at least.
    let mut turns = open.len();
    while turns > 0 {
        turns -= 1;
        let (after, behind) = read_ring(rest, digits, left, points, shape)?;
        left = after;
        let behind = skipped(behind);
        if is_first(behind, b',') {
            rest = &behind[1..];
        } else if is_first(behind, b')') {
            return Ok((left, &behind[1..]));
        } else {
            return Err(Stop::at(WktKind::NoClose, behind));
        }
    }
    Err(Stop::at(WktKind::NoClose, rest))
}

/// The ring that is due.
#[tactic(auto, unfolding(crate::specs::Wkt::ring_at))]
fn read_ring<'a>(
    text: &'a [u8],
    digits: u8,
    room: u32,
    points: &mut Vec<Point>,
    shape: &mut Shape,
) -> Result<(u32, &'a [u8]), Stop>
    requires digits { digits ≤ 9 }
    requires few { vertices_of shape.old + room ≤ 262144 }
    ensures found { Gives (λ found. record { rings = shape.new; room = found.0; rest = found.1.now }) result (with_front shape.old (ring_at digits room text.now)) }
    ensures few { IfOk result (λ found. vertices_of shape.new + found.0 ≤ 262144) }
{
    let text = skipped(text);
    if !is_first(text, b'(') {
        return Ok((room, behind_empty(text)?));
    }
    points.clear();
    let rest = read_points(&text[1..], digits, room, points)?;
    close_ring(rest, room, points, shape)
}

/// Adds the ring of these points, which stand before a `)`.
fn close_ring<'a>(
    text: &'a [u8],
    room: u32,
    points: &[Point],
    shape: &mut Shape,
) -> Result<(u32, &'a [u8]), Stop>
    requires few { vertices_of shape.old + room ≤ 262144 }
    requires points { length points.now ≤ room }
    requires close { 0 < length text.now }
    ensures found { Gives (λ found. record { rings = shape.new; room = found.0; rest = found.1.now }) result (with_front shape.old (ring_of room points.now text.now)) }
    ensures few { IfOk result (λ found. vertices_of shape.new + found.0 ≤ 262144) }
{
    if points.len() < 4 {
        return Err(Stop::at(WktKind::TooFew, text));
    }
    if points[0] != points[points.len() - 1] {
        return Err(Stop::at(WktKind::NotClosed, text));
    }
    add(shape, &points[..points.len() - 1])?;
    Ok((room - points.len() as u32, &text[1..]))
}

/// Adds the ring. The shape has room for it.
fn add(shape: &mut Shape, ring: &[Point]) -> Result<(), Stop>
    requires full { 3 ≤ length ring.now }
    requires room { vertices_of shape.old + length ring.now ≤ 262144 }
    ensures ok { OnOk result (shape.new ≡ shape.old ++ ring.now ∷ []) }
    ensures err { OnErr result (result ≡ Err Stop.NoMemory) }
{
    match shape.push_ring(ring) {
        Ok(()) => Ok(()),
        Err(PushFault::NoMemory) => Err(Stop::NoMemory),
        Err(_) => unreachable!(),
    }
}

/// The text behind the word `EMPTY`, which is due in place of a `(`.
fn behind_empty(text: &[u8]) -> Result<&[u8], Stop>
    ensures { (room : ℕ) → Gives (λ rest. record { rings = []; room = room; rest = rest.now }) result (empty_at room text.now) }
{
    let (word, rest) = split_run(Class::Letter, text);
    if is_the_word(word, b"EMPTY") {
        Ok(rest)
    } else {
        Err(Stop::at(WktKind::NoOpen, text))
    }
}
