//! A walk over the words of a body.

ghost use Rattle.act_geom.specs.Walk.{AnswersBody};

use crate::body::vertex;
use crate::edge::edge_counts;
use act_grid::Point;

/// Which word comes next.
#[derive(Clone, Copy, Debug, PartialEq, Eq)]
enum Phase {
    /// The number of rings.
    Rings,
    /// The number of a ring's vertices.
    Count,
    /// A ring's first vertex.
    First,
    /// A further vertex.
    Next,
}

/// Whether a point is inside a shape, found from the words of the shape's body, fed one by one.
///
/// A vertex costs two comparisons, and products only where its edge straddles the point's row.
#[derive(Clone, Copy, Debug, PartialEq, Eq)]
pub struct Walk {
    point: Point,
    phase: Phase,
    // An odd number of edges counted so far.
    odd: bool,
    // The rings to come after this one, and the vertices of this one to come.
    rings: u64,
    vertices: u64,
    first: Point,
    last: Point,
}

impl Walk {
    ghost use Rattle.std.specs.Prelude.{◌≡◌};
    ghost use Rattle.act_geom.specs.Walk.{Starts, Takes};
    ghost use Rattle.act_geom.specs.declared.walk.Phase.TheVariants.{Rings, Count, First, Next};

    /// A walk for this point, before the first word.
    pub fn start(p: Point) -> Walk
        ensures { Starts result p }
    {
        Walk {
            point: p,
            phase: Phase::Rings,
            odd: false,
            rings: 0,
            vertices: 0,
            first: p,
            last: p,
        }
    }

    /// Takes the next word. At the last word of a body, and not before, it answers whether the point is
    /// inside the shape. On words that are no body's, its answers mean nothing.
    #[inline]
    pub fn feed(&mut self, word: u64) -> Option<bool>
        ensures { Takes self.old word result self.new }
    {
        match self.phase {
            Phase::Next => self.feed_next(word),
            Phase::First => self.feed_first(word),
            Phase::Count => self.feed_count(word),
            Phase::Rings => self.feed_rings(word),
        }
    }

    #[inline]
    fn feed_rings(&mut self, word: u64) -> Option<bool>
        requires { self.old.phase ≡ Rings }
        ensures { Takes self.old word result self.new }
    {
        if word == 0 {
            return Some(false);
        }
        self.odd = false;
        self.rings = word;
        self.phase = Phase::Count;
        None
    }

    #[inline]
    fn feed_count(&mut self, word: u64) -> Option<bool>
        requires { self.old.phase ≡ Count }
        ensures { Takes self.old word result self.new }
    {
        self.rings = self.rings.saturating_sub(1);
        self.vertices = word;
        self.phase = Phase::First;
        None
    }

    #[inline]
    fn feed_first(&mut self, word: u64) -> Option<bool>
        requires { self.old.phase ≡ First }
        ensures { Takes self.old word result self.new }
    {
        let first = vertex(word);
        self.first = first;
        self.last = first;
        self.vertices = self.vertices.saturating_sub(1);
        self.phase = Phase::Next;
        None
    }

    #[inline]
    fn feed_next(&mut self, word: u64) -> Option<bool>
        requires { self.old.phase ≡ Next }
        ensures { Takes self.old word result self.new }
    {
        let to = vertex(word);
        let counted = edge_counts(self.last, to, self.point);
        self.odd = self.odd != counted;
        self.last = to;
        self.vertices = self.vertices.saturating_sub(1);
        if self.vertices > 0 {
            return None;
        }
        let closing = edge_counts(to, self.first, self.point);
        self.odd = self.odd != closing;
        if self.rings == 0 {
            return Some(self.odd);
        }
        self.phase = Phase::Count;
        None
    }
}

/// Whether the point is inside the shape whose body the words are. On other words the answer means
/// nothing.
pub fn inside_body(words: &[u64], p: Point) -> Option<bool>
    ensures { AnswersBody words.now p result }
{
    let mut walk = Walk::start(p);
    for word in words {
        let answer = walk.feed(*word);
        if answer.is_some() {
            return answer;
        }
    }
    None
}
