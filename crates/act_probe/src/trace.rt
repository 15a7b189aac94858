//! A way over the words of a body for all candidates of a zone.

ghost use Rattle.std.specs.Prelude.{◌≡◌, ℕ, ◌+◌, ◌<◌, ◌≤◌, ◌-ℤ◌, ◌^◌, pos, All, false, length, map, slice_index_or};
ghost use Rattle.act_geom.specs.Body.{vertex_word};
ghost use Rattle.act_probe.specs.declared.buffers.Candidate.{Candidate};

use crate::buffers::Candidate;
use crate::sweep::{cross, seek};
use act_grid::Point;

/// Which word comes next.
#[derive(Clone, Copy, Debug, PartialEq, Eq)]
enum Stage {
    /// The number of rings.
    Rings,
    /// The number of a ring's vertices.
    Count,
    /// A ring's first vertex.
    First,
    /// A further vertex.
    Next,
}

/// How far the words of a body were taken.
#[derive(Clone, Copy, Debug, PartialEq, Eq)]
pub(crate) struct Trace {
    stage: Stage,
    // The rings to come after this one, and the vertices of this one to come.
    rings: u64,
    vertices: u64,
    first: Point,
    last: Point,
    // The place of the last vertex's row among the candidates.
    at: usize,
}

/// The vertex of a word.
#[inline]
fn vertex(word: u64) -> Point
    ensures { (v : Point) → vertex_word v ≡ word → result ≡ v }
{
    Point {
        x: coordinate(word >> 32),
        y: coordinate(word & 0xffff_ffff),
    }
}

/// The coordinate that is so far from the low side of the grid.
#[inline]
fn coordinate(offset: u64) -> i32
    requires { offset < 2 ^ 32 }
    ensures { result ≡ pos offset -ℤ pos (2 ^ 31) }
{
    (offset as i64 - 0x8000_0000) as i32
}

impl Trace {
    ghost use Rattle.act_probe.specs.declared.trace.Stage.TheVariants.{Rings, Count, First, Next};
    ghost use Rattle.act_probe.specs.Sweeps.{Ascends, Follows, IsSet, at_rest, walk_of};

    /// Before the first word.
    pub(crate) fn start() -> Trace
        ensures stage { result.stage ≡ Rings }
        ensures at { result.at ≡ 0 }
    {
        let origin = Point { x: 0, y: 0 };
        Trace {
            stage: Stage::Rings,
            rings: 0,
            vertices: 0,
            first: origin,
            last: origin,
            at: 0,
        }
    }

    #[inline]
    fn feed_rings(&mut self, word: u64) -> bool
        requires { self.old.stage ≡ Rings }
        ensures follows { (c : Candidate) → c.odd ≡ false → Follows self.old c word result self.new c }
        ensures stage { self.new.stage ≡ Count }
        ensures at { self.new.at ≡ self.old.at }
    {
        self.stage = Stage::Count;
        self.rings = word;
        if word == 0 {
            return true;
        }
        false
    }

    #[inline]
    fn feed_count(&mut self, word: u64)
        requires { self.old.stage ≡ Count }
        ensures follows { (c : Candidate) → Follows self.old c word false self.new c }
        ensures stage { self.new.stage ≡ First }
        ensures at { self.new.at ≡ self.old.at }
    {
        self.rings = self.rings.saturating_sub(1);
        self.vertices = word;
        self.stage = Stage::First;
    }

    #[inline]
    fn feed_first(&mut self, word: u64, run: &[Candidate])
        requires stage { self.old.stage ≡ First }
        requires ascends { Ascends run.now }
        requires within { self.old.at ≤ length run.now }
        ensures follows { (c : Candidate) → Follows self.old c word false self.new c }
        ensures set { IsSet self.new run.now }
        ensures stage { self.new.stage ≡ Next }
    {
        let first = vertex(word);
        self.at = seek(run, self.at, first);
        self.first = first;
        self.last = first;
        self.vertices = self.vertices.saturating_sub(1);
        self.stage = Stage::Next;
    }

    #[inline]
    fn feed_next(&mut self, word: u64, run: &mut [Candidate]) -> bool
        requires stage { self.old.stage ≡ Next }
        requires ascends { Ascends run.old }
        requires set { IsSet self.old run.old }
        ensures follows { (k : ℕ) (d : Candidate) → k < length run.old → Follows self.old (slice_index_or run.old k d) word result self.new (slice_index_or run.new k d) }
        ensures rest { map at_rest run.new ≡ map at_rest run.old }
        ensures ascends { Ascends run.new }
        ensures set { IsSet self.new run.new }
        ensures stage { self.new.stage ≡ Rings → ⊥ }
    {
        let to = vertex(word);
        let at = cross(run, self.at, self.last, to);
        self.at = at;
        self.last = to;
        self.vertices = self.vertices.saturating_sub(1);
        if self.vertices > 0 {
            return false;
        }
        self.at = cross(run, at, to, self.first);
        self.stage = Stage::Count;
        if self.rings == 0 {
            return true;
        }
        false
    }

    /// How many vertices come before the last one of the ring at hand.
    #[inline]
    pub(crate) fn ahead(&self) -> u64
        ensures stage { 0 < result → self.now.stage ≡ Next }
        ensures left { 0 < result → result + 1 ≡ self.now.vertices }
    {
        match self.stage {
            Stage::Next => self.vertices.saturating_sub(1),
            _ => 0,
        }
    }

    /// Takes a vertex that isn't the last one of its ring.
    #[inline(always)]
    pub(crate) fn feed_inner(&mut self, word: u64, run: &mut [Candidate])
        requires stage { self.old.stage ≡ Next }
        requires more { 1 < self.old.vertices }
        requires ascends { Ascends run.old }
        requires set { IsSet self.old run.old }
        ensures follows { (k : ℕ) (d : Candidate) → k < length run.old → Follows self.old (slice_index_or run.old k d) word false self.new (slice_index_or run.new k d) }
        ensures rest { map at_rest run.new ≡ map at_rest run.old }
        ensures ascends { Ascends run.new }
        ensures set { IsSet self.new run.new }
        ensures stage { self.new.stage ≡ Next }
        ensures left { self.new.vertices + 1 ≡ self.old.vertices }
    {
        let to = vertex(word);
        self.at = cross(run, self.at, self.last, to);
        self.last = to;
        self.vertices -= 1;
    }

    /// Takes the next word, and says whether it was the last one. At the last word of a body an odd count
    /// says of each candidate that it is inside. On words that are no body's, the counts mean nothing.
    pub(crate) fn feed(&mut self, word: u64, run: &mut [Candidate]) -> bool
        requires even { self.old.stage ≡ Rings → All (λ c. c.odd ≡ false) run.old }
        requires ascends { Ascends run.old }
        requires set { IsSet self.old run.old }
        ensures follows { (k : ℕ) (d : Candidate) → k < length run.old → Follows self.old (slice_index_or run.old k d) word result self.new (slice_index_or run.new k d) }
        ensures rest { map at_rest run.new ≡ map at_rest run.old }
        ensures ascends { Ascends run.new }
        ensures set { IsSet self.new run.new }
        ensures stage { self.new.stage ≡ Rings → ⊥ }
    {
        match self.stage {
            Stage::Next => self.feed_next(word, run),
            Stage::First => {
                self.feed_first(word, run);
                false
            }
            Stage::Count => {
                self.feed_count(word);
                false
            }
            Stage::Rings => self.feed_rings(word),
        }
    }
}
