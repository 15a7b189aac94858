//! The candidates of one zone, tested by one way over its words.

ghost use Rattle.std.specs.Prelude.{◌<ℤ◌, true, false, slice_index_or, ◌≡◌, ℕ, ◌+◌, ◌<◌, ◌≤◌, ◌-ℤ◌, ◌*ℤ◌, ◌≤ℤ◌, int_lt, length, map};
ghost use Rattle.act_geom.specs.Inside.{is_left};
ghost use Rattle.act_probe.specs.declared.buffers.Candidate.{Candidate};
ghost use Rattle.act_probe.specs.Sweeps.{Ascends, IsAboveFrom, IsPlacedAt, at_rest, crossed};

use crate::buffers::Candidate;
use act_grid::Point;

/// How far one number is above another one.
#[inline]
fn difference(from: i32, to: i32) -> i64
    ensures { result ≡ to -ℤ from }
{
    i64::from(to) - i64::from(from)
}

/// A product, which 128 bits always hold.
#[inline]
fn product(a: i64, b: i64) -> i128
    ensures { result ≡ a *ℤ b }
{
    i128::from(a) * i128::from(b)
}

#[inline]
fn is_below(a: i128, b: i128) -> bool
    ensures { result ≡ int_lt a b }
{
    a < b
}

/// Whether a point lies on the left of the way from `a` to `b`.
fn is_left(a: Point, b: Point, p: Point) -> bool
    ensures { result ≡ is_left a b p }
{
    let right = product(difference(a.x, p.x), difference(a.y, b.y));
    let left = product(difference(a.x, b.x), difference(a.y, p.y));
    is_below(right, left)
}

/// Whether a column lies west of another one.
#[inline]
fn is_west(x: i32, other: i32) -> bool
    ensures { result ≡ int_lt x other }
{
    x < other
}

/// Whether the way up from `low` to `high` passes a point between the rows of its ends on the point's right. Both ends lie on
/// one side of nearly all points: that takes two comparisons, and no branch hangs on the side.
#[inline]
fn passes_right(low: Point, high: Point, p: Point) -> bool
    requires below { low.y ≤ℤ p.y }
    requires above { p.y <ℤ high.y }
    ensures { result ≡ is_left low high p }
{
    let right = is_west(p.x, low.x);
    if right != is_west(p.x, high.x) {
        return is_left(low, high, p);
    }
    right
}

/// Counts an edge up from `a` to `b` for a candidate between the rows of its ends.
#[inline]
fn flip_up(candidate: &mut Candidate, a: Point, b: Point)
    requires above { a.y ≤ℤ candidate.old.point.y }
    requires below { candidate.old.point.y <ℤ b.y }
    ensures { candidate.new ≡ crossed a b candidate.old }
{
    candidate.odd ^= passes_right(a, b, candidate.point);
}

/// Counts an edge down from `a` to `b` for a candidate between the rows of its ends.
#[inline]
fn flip_down(candidate: &mut Candidate, a: Point, b: Point)
    requires above { b.y ≤ℤ candidate.old.point.y }
    requires below { candidate.old.point.y <ℤ a.y }
    ensures { candidate.new ≡ crossed a b candidate.old }
{
    candidate.odd ^= passes_right(b, a, candidate.point);
}

/// Whether a candidate's point lies below the row of a vertex.
#[inline]
fn is_under(candidate: &Candidate, v: Point) -> bool
    ensures { result ≡ int_lt candidate.now.point.y v.y }
{
    candidate.point.y < v.y
}

/// Counts an edge up from `a` to `b`, whose rows have places among the candidates: `from` is that of the row of `a`,
/// and that of the row of `b` is answered.
fn rise(run: &mut [Candidate], from: usize, a: Point, b: Point) -> usize
    requires up { a.y ≤ℤ b.y }
    requires ascends { Ascends run.old }
    requires placed { IsPlacedAt a.y from run.old }
    ensures crossed { run.new ≡ map (crossed a b) run.old }
    ensures placed { IsPlacedAt b.y result run.new }
{
    let mut at = from;
    while at < run.len() && is_under(&run[at], b) {
        flip_up(&mut run[at], a, b);
        at += 1;
    }
    at
}

/// Counts an edge down from `a` to `b`.
fn fall(run: &mut [Candidate], from: usize, a: Point, b: Point) -> usize
    requires down { b.y ≤ℤ a.y }
    requires ascends { Ascends run.old }
    requires placed { IsPlacedAt a.y from run.old }
    ensures crossed { run.new ≡ map (crossed a b) run.old }
    ensures placed { IsPlacedAt b.y result run.new }
{
    let mut at = from;
    while at > 0 && !is_under(&run[at - 1], b) {
        at -= 1;
        flip_down(&mut run[at], a, b);
    }
    at
}

/// Whether there is a candidate at a place, and it lies below the row of a vertex.
#[inline]
fn is_next_under(run: &[Candidate], at: usize, v: Point) -> bool
    requires ascends { Ascends run.now }
    requires within { at ≤ length run.now }
    ensures yes { result ≡ true → (at < length run.now) × ((d : Candidate) → (slice_index_or run.now at d).point.y <ℤ v.y) }
    ensures no { result ≡ false → IsAboveFrom v.y at run.now }
{
    if at == run.len() {
        return false;
    }
    is_under(&run[at], v)
}

/// Whether there is a candidate before a place, and it doesn't lie below the row of a vertex.
#[inline]
fn is_last_above(run: &[Candidate], at: usize, v: Point) -> bool
    requires ascends { Ascends run.now }
    requires within { at ≤ length run.now }
    ensures yes { result ≡ true → (m : ℕ) × (at ≡ m + 1) × ((d : Candidate) → v.y ≤ℤ (slice_index_or run.now m d).point.y) }
    ensures no { result ≡ false → (k : ℕ) (d : Candidate) → k < at → (slice_index_or run.now k d).point.y <ℤ v.y }
{
    if at == 0 {
        return false;
    }
    !is_under(&run[at - 1], v)
}

/// Counts an edge from `a` to `b`. Only the candidates of the rows between its ends are looked at, and where there are none, it
/// isn't asked which end is the higher one.
#[inline(always)]
pub(crate) fn cross(run: &mut [Candidate], at: usize, a: Point, b: Point) -> usize
    requires ascends { Ascends run.old }
    requires placed { IsPlacedAt a.y at run.old }
    ensures crossed { run.new ≡ map (crossed a b) run.old }
    ensures placed { IsPlacedAt b.y result run.new }
    ensures ascends { Ascends run.new }
    ensures rest { map at_rest run.new ≡ map at_rest run.old }
{
    if is_next_under(run, at, b) {
        return rise(run, at, a, b);
    }
    if is_last_above(run, at, b) {
        return fall(run, at, a, b);
    }
    at
}

/// A place from which on no point lies below the row of a vertex.
fn seek_up(run: &[Candidate], from: usize, v: Point) -> usize
    requires ascends { Ascends run.now }
    requires within { from ≤ length run.now }
    ensures { IsAboveFrom v.y result run.now }
{
    let mut at = from;
    while at < run.len() && is_under(&run[at], v) {
        at += 1;
    }
    at
}

/// The first of such places.
fn seek_down(run: &[Candidate], from: usize, v: Point) -> usize
    requires ascends { Ascends run.now }
    requires above { IsAboveFrom v.y from run.now }
    ensures { IsPlacedAt v.y result run.now }
{
    let mut at = from;
    while at > 0 && !is_under(&run[at - 1], v) {
        at -= 1;
    }
    at
}

/// The place of a vertex's row among the candidates, sought from another place.
pub(crate) fn seek(run: &[Candidate], from: usize, v: Point) -> usize
    requires ascends { Ascends run.now }
    requires within { from ≤ length run.now }
    ensures { IsPlacedAt v.y result run.now }
{
    let up = seek_up(run, from, v);
    seek_down(run, up, v)
}
