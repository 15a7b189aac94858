//! The words of a shape's body.

ghost use Rattle.std.specs.Prelude.{◌≡◌, ℕ, ◌+◌, ◌<◌, ◌≤◌, ◌^◌, length, take, slice_index, pos, ◌+ℤ◌};
ghost use Rattle.act_grid.specs.declared.Point.{Point};
ghost use Rattle.act_geom.specs.Rings.{vertices_of};
ghost use Rattle.act_geom.specs.Body.{offset_of, vertex_word, body_of};

use crate::shape::Shape;
use act_grid::Point;

/// How many words the body has: one, one for each ring and one for each vertex.
pub fn body_len(shape: &Shape) -> u32
    ensures { result ≡ length (body_of shape.now) }
{
    1 + shape.rings() + shape.vertices()
}

/// A word of the body, counted from 0: the number of rings, and then for each ring its number of
/// vertices and a word for each vertex. It looks for the ring by halves.
pub fn body_word(shape: &Shape, k: u32) -> u64
    requires { k < length (body_of shape.now) }
    ensures { result ≡ slice_index (body_of shape.now) k }
{
    if k == 0 {
        return u64::from(shape.rings());
    }
    let ring = ring_at(shape, k);
    let start = 1 + ring + shape.vertices_before(ring);
    let vertices = shape.ring(ring);
    if k == start {
        return vertices.len() as u64;
    }
    word_of(vertices[(k - start - 1) as usize])
}

// The ring whose words the k-th is among.
fn ring_at(shape: &Shape, k: u32) -> u32
    requires after { 1 ≤ k }
    requires within { k < length (body_of shape.now) }
    ensures ring { result < length shape.now }
    ensures start { 1 + result + vertices_of (take result shape.now) ≤ k }
    ensures end { k < 2 + result + vertices_of (take (result + 1) shape.now) }
{
    let mut low = 0;
    let mut high = shape.rings();
    while high - low > 1 {
        let middle = low + (high - low) / 2;
        if 1 + middle + shape.vertices_before(middle) <= k {
            low = middle;
        } else {
            high = middle;
        }
    }
    low
}

// The word of a vertex.
#[inline]
fn word_of(v: Point) -> u64
    ensures { result ≡ vertex_word v }
{
    (offset(v.x) << 32) + offset(v.y)
}

// How far a coordinate is from the low side of the grid.
#[inline]
fn offset(z: i32) -> u64
    ensures value { result ≡ offset_of z }
    ensures small { result < 2 ^ 32 }
{
    (i64::from(z) + 0x8000_0000) as u64
}

/// The vertex of a word.
#[inline]
pub(crate) fn vertex(word: u64) -> Point
    ensures { (v : Point) → vertex_word v ≡ word → result ≡ v }
{
    Point {
        x: coordinate(word >> 32),
        y: coordinate(word & 0xffff_ffff),
    }
}

// The coordinate that is so far from the low side of the grid.
#[inline]
fn coordinate(offset: u64) -> i32
    requires { offset < 2 ^ 32 }
    ensures { result +ℤ pos (2 ^ 31) ≡ pos offset }
{
    (offset as i64 - 0x8000_0000) as i32
}
