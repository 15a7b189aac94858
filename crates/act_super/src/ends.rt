//! The ends of edges.

ghost use Rattle.std.specs.Prelude.{◌≡◌, ◌≤◌};
ghost use Rattle.act_geom.specs.Inside.{differ, is_above};

use act_grid::Point;

/// How many points are kept.
const MOST: usize = 4;

/// The ends of edges, one after the other, where two equal ones leave each other out: above any row lies an odd number of
/// those that are left exactly where it does of all. Edges that follow one another leave the first end and the last, and a
/// whole ring none. So the edges of rings, the first and the last of which may be cut, leave four at most.
#[derive(Drop)]
pub(crate) struct Ends {
    points: [Point; MOST],
    len: u8,
    // Whether each point that was left found its place.
    all: bool,
    ghost few: { len ≤ 4 },
}

/// Whether exactly one of the two is so.
#[inline]
pub(crate) fn differs(a: bool, b: bool) -> bool
    ensures { result ≡ differ a b }
{
    if a { !b } else { b }
}

// Whether the first point lies strictly above the row of the second.
#[inline]
fn is_above(v: Point, p: Point) -> bool
    ensures { result ≡ is_above v p }
{
    p.y < v.y
}

impl Ends {
    ghost use Rattle.std.specs.Prelude.{◌≡◌, ◌++◌, ◌-◌, ◌<◌, [], ◌∷◌, IfSome, List, get_or, true};
    ghost use Rattle.act_grid.specs.declared.Point.{Point as Spot};
    ghost use Rattle.act_geom.specs.Inside.{is_above, is_odd_by};
    ghost use Rattle.act_super.specs.Bounds.{TellEnds};

    /// Before the first point.
    pub fn none() -> Ends
        ensures { TellEnds result [] }
    {
        Ends {
            points: [Point { x: 0, y: 0 }; MOST],
            len: 0,
            all: true,
        }
    }

    // Whether this point is kept last.
    fn ends_with(&self, end: Point) -> bool
        ensures { result ≡ true → (0 < self.now.len) × (get_or self.now.points (self.now.len - 1) end ≡ end) }
    {
        if self.len == 0 {
            return false;
        }
        self.points[self.len as usize - 1] == end
    }

    /// One point more.
    pub fn put(&mut self, end: Point)
        ensures { (ends : List Spot) → TellEnds self.old ends → TellEnds self.new (ends ++ end ∷ []) }
    {
        let len = self.len as usize;
        if self.ends_with(end) {
            self.len -= 1;
        } else if len < MOST {
            self.points[len] = end;
            self.len += 1;
        } else {
            self.all = false;
        }
    }

    /// Whether an odd number of the points lies above the row of this one, where that is known.
    #[inline]
    pub fn odd_above(&self, p: Point) -> Option<bool>
        ensures { IfSome result (λ odd. (ends : List Spot) → TellEnds self.now ends → odd ≡ is_odd_by (λ v. is_above v p) ends) }
    {
        if !self.all {
            return None;
        }
        let mut odd = false;
        for end in &self.points[..self.len as usize] {
            odd = differs(odd, is_above(*end, p));
        }
        Some(odd)
    }
}
