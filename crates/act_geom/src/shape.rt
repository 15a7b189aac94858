//! Shapes: rings of vertices, kept one after another in one buffer.

ghost use Rattle.std.specs.Prelude.{◌≡◌, ◌<◌, ◌≤◌, length, slice_range};
ghost use Rattle.act_geom.specs.Laid.{begin_of};

use act_grid::{NoMemory, Point};
use std::alloc::Global;
use std::marker::Model;

/// The vertices that a shape may have.
pub const MOST_VERTICES: usize = 262_144;

/// Why a ring was not added.
#[derive(Clone, Copy, Debug, PartialEq, Eq)]
pub enum PushFault {
    /// The ring has fewer than three vertices.
    Few,
    /// The shape would have more than `MOST_VERTICES` vertices.
    Many,
    /// There was not memory enough.
    NoMemory,
}

/// A list of rings. Each has at least three vertices, its first one not repeated at its end.
///
/// Rings may cross, touch and lie in one another, in any direction of turning.
#[derive(Debug, Drop)]
pub struct Shape {
    // The vertices of all rings, ring after ring.
    points: Vec<Point>,
    // Where each ring ends among them.
    ends: Vec<u32>,
}

// Clauses see the rings.
impl Model for Shape {
    ghost use Rattle.std.specs.Prelude.{List};
    ghost use Rattle.act_grid.specs.declared.Point.{Point};

    ghost Value = { List (List Point) };

    ghost use Rattle.act_geom.specs.Laid.{rings_between, IsLaid};

    ghost view = { λ shape. rings_between 0 shape.ends.items shape.points.items };

    ghost invariant = { λ shape. IsLaid shape.ends.items shape.points.items };
}

impl Shape {
    ghost use Rattle.std.specs.Prelude.{◌≡◌, ◌+◌, ◌<◌, ◌≤◌, ◌↔◌, [], ◌∷◌, ◌++◌, length, take, OnOk, OnErr, IfOk, slice_get};
    ghost use Rattle.act_geom.specs.Rings.{vertices_of, IsShape};

    /// A shape without rings. It contains no point.
    pub fn new(alloc: Global) -> Shape
        ensures { result ≡ [] }
    {
        Shape {
            points: Vec::new(alloc),
            ends: Vec::new(alloc),
        }
    }

    /// Adds a ring, whose last vertex is joined to its first. It copies the vertices.
    pub fn push_ring(&mut self, ring: &[Point]) -> Result<(), PushFault>
        ensures ok { OnOk result (self.new ≡ self.old ++ ring.now ∷ []) }
        ensures few { (result ≡ Err PushFault.Few) ↔ (length ring.now < 3) }
        ensures many { (result ≡ Err PushFault.Many)
            ↔ ((3 ≤ length ring.now) × (MOST_VERTICES < vertices_of self.old + length ring.now)) }
        ensures err { OnErr result (self.new ≡ self.old) }
    {
        if ring.len() < 3 {
            return Err(PushFault::Few);
        }
        if ring.len() > MOST_VERTICES - self.points.len() {
            return Err(PushFault::Many);
        }
        if self.ends.reserve(1).is_err() {
            return Err(PushFault::NoMemory);
        }
        if self.points.extend_from_slice(ring).is_err() {
            return Err(PushFault::NoMemory);
        }
        let end = self.points.len() as u32;
        match self.ends.push(end) {
            Ok(()) => Ok(()),
            Err(_) => unreachable!(),
        }
    }

    /// How many rings there are.
    pub fn rings(&self) -> u32
        ensures value { result ≡ length self.now }
        ensures shape { IsShape self.now }
    {
        self.ends.len() as u32
    }

    /// How many vertices the rings have together.
    pub fn vertices(&self) -> u32
        ensures value { result ≡ vertices_of self.now }
        ensures shape { IsShape self.now }
    {
        self.points.len() as u32
    }

    /// The vertices of a ring, counted from 0. It takes constant time.
    pub fn ring(&self, k: u32) -> &[Point]
        requires { k < length self.now }
        ensures item { slice_get self.now k ≡ Some result.now }
        ensures full { 3 ≤ length result.now }
    {
        let start = begin(&self.ends, k as usize);
        let end = self.ends[k as usize] as usize;
        part(&self.points, start, end)
    }

    /// How many vertices the rings before the k-th have together. It takes constant time.
    pub(crate) fn vertices_before(&self, k: u32) -> u32
        requires { k ≤ length self.now }
        ensures { result ≡ vertices_of (take k self.now) }
    {
        begin(&self.ends, k as usize) as u32
    }

    /// A copy in memory of its own.
    pub fn try_clone(&self) -> Result<Shape, NoMemory>
        ensures { IfOk result (λ copy. copy ≡ self.now) }
    {
        let points = self.points.clone()?;
        let ends = self.ends.clone()?;
        Ok(Shape { points, ends })
    }
}

// Where the k-th ring begins, among rings with these ends.
fn begin(ends: &[u32], k: usize) -> usize
    requires { k ≤ length ends.now }
    ensures { result ≡ begin_of 0 ends.now k }
{
    if k == 0 { 0 } else { ends[k - 1] as usize }
}

// The vertices from one place up to another.
fn part(points: &[Point], start: usize, end: usize) -> &[Point]
    requires order { start ≤ end }
    requires within { end ≤ length points.now }
    ensures { result.now ≡ slice_range points.now start end }
{
    &points[start..end]
}
