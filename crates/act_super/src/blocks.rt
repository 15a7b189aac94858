//! The edges of a shape in blocks and in groups of blocks, each with what bounds its edges.

ghost use Rattle.std.specs.Prelude.{◌≡◌, ◌≤ℤ◌, ◌<◌, ◌++◌, IfOk, OnOk, drop, take};
ghost use Rattle.std.specs.List.{list_any};
ghost use Rattle.act_geom.specs.Edges.{edges_of, ring_edges};
ghost use Rattle.act_geom.specs.Inside.{counts, is_odd_by};
ghost use Rattle.act_geom.specs.Touch.{touches_hull};
ghost use Rattle.act_super.specs.Bounds.{AreBound, IsBound, class_by, edges_in};

use crate::bounds::Bounds;
use crate::ends::differs;
use crate::frame::is_apart;
use act_geom::{Class, Shape, edge_counts, hull_touches};
use act_grid::{Hull, Point};
use std::alloc::{AllocError, Global};
use std::marker::Model;

/// How many edges a block has, but for the last one.
const BLOCK: usize = 16;

/// How many blocks a group has, but for the last one.
const GROUP: usize = 64;

/// How many edges a group has, but for the last one.
const GROUP_EDGES: usize = 1024;

/// An edge of a shape.
#[derive(Clone, Copy, Debug, PartialEq, Eq)]
pub(crate) struct Side {
    pub a: Point,
    pub b: Point,
}

/// The edges of a shape. Contracts see the list.
#[derive(Drop)]
pub(crate) struct Blocks {
    sides: Vec<Side>,
    // What bounds each 16 edges.
    blocks: Vec<Bounds>,
    // What bounds each 64 blocks.
    groups: Vec<Bounds>,
}

impl Model for Blocks {
    ghost use Rattle.std.specs.Prelude.{List};
    ghost use Rattle.act_geom.specs.Edges.{Edge};
    ghost use Rattle.act_super.specs.Bounds.{AreBound, edges_in};

    ghost Value = { List Edge };

    ghost view = { λ b. edges_in b.sides.items };

    ghost invariant = { λ b. AreBound 16 b.blocks.items b.sides.items × AreBound 1024 b.groups.items b.sides.items };
}

// Puts the edges of a ring.
fn push_ring(sides: &mut Vec<Side>, ring: &[Point]) -> Result<(), AllocError>
    ensures { OnOk result (edges_in sides.new.items ≡ edges_in sides.old.items ++ ring_edges ring.now) }
{
    if ring.is_empty() {
        return Ok(());
    }
    let first = ring[0];
    let mut from = first;
    for to in &ring[1..] {
        sides.push(Side { a: from, b: *to })?;
        from = *to;
    }
    sides.push(Side { a: from, b: first })?;
    Ok(())
}

// The bounds of each so many edges.
fn bounds_of(alloc: Global, sides: &[Side], size: usize) -> Result<Vec<Bounds>, AllocError>
    requires { 0 < size }
    ensures { IfOk result (λ bounds. AreBound size bounds.items sides.now) }
{
    let mut bounds = Vec::new(alloc);
    let mut rest = sides;
    while !rest.is_empty() {
        let (block, after) = cut(rest, size);
        bounds.push(Bounds::of(block))?;
        rest = after;
    }
    Ok(bounds)
}

// The first so many edges, and the others.
#[inline]
fn cut(sides: &[Side], size: usize) -> (&[Side], &[Side])
    ensures first { result.0.now ≡ take size sides.now }
    ensures rest { result.1.now ≡ drop size sides.now }
{
    sides.split_at(sides.len().min(size))
}

// The blocks of a group, and the others.
#[inline]
fn cut_group(blocks: &[Bounds]) -> (&[Bounds], &[Bounds])
    ensures first { result.0.now ≡ take 64 blocks.now }
    ensures rest { result.1.now ≡ drop 64 blocks.now }
{
    blocks.split_at(blocks.len().min(GROUP))
}

fn touches(sides: &[Side], hull: Hull) -> bool
    requires wide { hull.lo.x ≤ℤ hull.hi.x }
    requires tall { hull.lo.y ≤ℤ hull.hi.y }
    ensures { result ≡ list_any (touches_hull hull) (edges_in sides.now) }
{
    for side in sides {
        if hull_touches(hull, side.a, side.b) {
            return true;
        }
    }
    false
}

// Whether an edge of a block touches the hull.
#[inline]
fn block_touches(bounds: &Bounds, block: &[Side], hull: Hull) -> bool
    requires bound { IsBound bounds.now block.now }
    requires wide { hull.lo.x ≤ℤ hull.hi.x }
    requires tall { hull.lo.y ≤ℤ hull.hi.y }
    ensures { result ≡ list_any (touches_hull hull) (edges_in block.now) }
{
    if is_apart(bounds.frame, hull) {
        return false;
    }
    touches(block, hull)
}

// Whether an edge of these blocks touches the hull.
fn any_touches(blocks: &[Bounds], sides: &[Side], hull: Hull) -> bool
    requires bound { AreBound 16 blocks.now sides.now }
    requires wide { hull.lo.x ≤ℤ hull.hi.x }
    requires tall { hull.lo.y ≤ℤ hull.hi.y }
    ensures { result ≡ list_any (touches_hull hull) (edges_in sides.now) }
{
    let mut rest = sides;
    for bounds in blocks {
        let (block, after) = cut(rest, BLOCK);
        if block_touches(bounds, block, hull) {
            return true;
        }
        rest = after;
    }
    false
}

// Whether an edge of a group touches the hull.
#[inline]
fn group_touches(bounds: &Bounds, blocks: &[Bounds], sides: &[Side], hull: Hull) -> bool
    requires group { IsBound bounds.now sides.now }
    requires bound { AreBound 16 blocks.now sides.now }
    requires wide { hull.lo.x ≤ℤ hull.hi.x }
    requires tall { hull.lo.y ≤ℤ hull.hi.y }
    ensures { result ≡ list_any (touches_hull hull) (edges_in sides.now) }
{
    if is_apart(bounds.frame, hull) {
        return false;
    }
    any_touches(blocks, sides, hull)
}

// Whether an edge of these groups touches the hull.
fn any_group_touches(groups: &[Bounds], blocks: &[Bounds], sides: &[Side], hull: Hull) -> bool
    requires groups { AreBound 1024 groups.now sides.now }
    requires bound { AreBound 16 blocks.now sides.now }
    requires wide { hull.lo.x ≤ℤ hull.hi.x }
    requires tall { hull.lo.y ≤ℤ hull.hi.y }
    ensures { result ≡ list_any (touches_hull hull) (edges_in sides.now) }
{
    let mut rest = sides;
    let mut under = blocks;
    for bounds in groups {
        let (group, after) = cut(rest, GROUP_EDGES);
        let (own, others) = cut_group(under);
        if group_touches(bounds, own, group, hull) {
            return true;
        }
        rest = after;
        under = others;
    }
    false
}

fn is_odd(sides: &[Side], p: Point) -> bool
    ensures { result ≡ is_odd_by (counts p) (edges_in sides.now) }
{
    let mut odd = false;
    for side in sides {
        if edge_counts(side.a, side.b, p) {
            odd = !odd;
        }
    }
    odd
}

// Whether an odd number of edges of a block counts for the point.
#[inline]
fn block_is_odd(bounds: &Bounds, block: &[Side], p: Point) -> bool
    requires bound { IsBound bounds.now block.now }
    ensures { result ≡ is_odd_by (counts p) (edges_in block.now) }
{
    match bounds.odd_at(p) {
        Some(odd) => odd,
        None => is_odd(block, p),
    }
}

// Whether an odd number of edges of these blocks counts for the point.
fn odd_in(blocks: &[Bounds], sides: &[Side], p: Point) -> bool
    requires bound { AreBound 16 blocks.now sides.now }
    ensures { result ≡ is_odd_by (counts p) (edges_in sides.now) }
{
    let mut odd = false;
    let mut rest = sides;
    for bounds in blocks {
        let (block, after) = cut(rest, BLOCK);
        odd = differs(odd, block_is_odd(bounds, block, p));
        rest = after;
    }
    odd
}

// Whether an odd number of edges of a group counts for the point.
#[inline]
fn group_is_odd(bounds: &Bounds, blocks: &[Bounds], sides: &[Side], p: Point) -> bool
    requires group { IsBound bounds.now sides.now }
    requires bound { AreBound 16 blocks.now sides.now }
    ensures { result ≡ is_odd_by (counts p) (edges_in sides.now) }
{
    match bounds.odd_at(p) {
        Some(odd) => odd,
        None => odd_in(blocks, sides, p),
    }
}

// Whether an odd number of edges of these groups counts for the point.
fn odd_in_groups(groups: &[Bounds], blocks: &[Bounds], sides: &[Side], p: Point) -> bool
    requires groups { AreBound 1024 groups.now sides.now }
    requires bound { AreBound 16 blocks.now sides.now }
    ensures { result ≡ is_odd_by (counts p) (edges_in sides.now) }
{
    let mut odd = false;
    let mut rest = sides;
    let mut under = blocks;
    for bounds in groups {
        let (group, after) = cut(rest, GROUP_EDGES);
        let (own, others) = cut_group(under);
        odd = differs(odd, group_is_odd(bounds, own, group, p));
        rest = after;
        under = others;
    }
    odd
}

impl Blocks {
    /// The edges of the shape. It looks at each vertex a few times, and takes some 19 bytes a vertex.
    pub fn of(alloc: Global, shape: &Shape) -> Result<Blocks, AllocError>
        ensures { IfOk result (λ blocks. blocks ≡ edges_of shape.now) }
    {
        let mut sides = Vec::with_capacity(alloc, shape.vertices() as usize)?;
        for k in 0..shape.rings() {
            push_ring(&mut sides, shape.ring(k))?;
        }
        let blocks = bounds_of(alloc, &sides, BLOCK)?;
        let groups = bounds_of(alloc, &sides, GROUP_EDGES)?;
        Ok(Blocks {
            sides,
            blocks,
            groups,
        })
    }

    /// Whether an odd number of edges counts for the point. It looks at the bounds of each group, of the blocks in those
    /// whose box lies around the point, and at the edges in such blocks.
    pub fn hold(&self, p: Point) -> bool
        ensures { result ≡ is_odd_by (counts p) self.now }
    {
        odd_in_groups(&self.groups, &self.blocks, &self.sides, p)
    }

    /// How the shape of the edges lies on a hull. It looks at the bounds of each group once or twice, of the blocks in those
    /// that meet the hull or hold its first point, and at the edges in such blocks.
    pub fn class_on(&self, hull: Hull) -> Class
        requires wide { hull.lo.x ≤ℤ hull.hi.x }
        requires tall { hull.lo.y ≤ℤ hull.hi.y }
        ensures { result ≡ class_by self.now hull }
    {
        if any_group_touches(&self.groups, &self.blocks, &self.sides, hull) {
            return Class::Mixed;
        }
        if self.hold(hull.lo) {
            Class::Inside
        } else {
            Class::Outside
        }
    }
}
