//! The references of the leaves of points.

ghost use Rattle.std.specs.Prelude.{◌≡◌, ◌+◌, ◌*◌, ◌/◌, ◌<◌, ◌≤◌, ◌^◌, ◌++◌, ◌∷◌, [], Bool, List, length, map, take, vec_capacity};
ghost use Rattle.std.specs.Option.{option_to_list};
ghost use Rattle.act_base.specs.Counting.{times};
ghost use Rattle.act_base.specs.Sight.{Sight};
ghost use Rattle.act_entry.specs.declared.reference.Ref.{Ref};
ghost use Rattle.act_super.specs.declared.entry.Zone.{Zone};
ghost use Rattle.act_super.specs.Stands.{HasWords, words_of};
ghost use Rattle.act_probe.specs.Chains.{PairAt, RefsOf, Tells};
ghost use Rattle.act_probe.specs.Reads.{list_reads};
ghost use Rattle.act_probe.specs.Names.{named_by};

use crate::buffers::Named;
use crate::words::Words;
use act_base::Steps;
use act_entry::{Entry, Ref, unpack};
use act_grid::Point;
use std::sync::ledger::Ledger;

/// Puts a reference of a point's leaf.
#[inline]
fn put(named: &mut Vec<Named>, r: Ref, place: u32, point: Point)
    requires space { length named.old.items + 1 ≤ vec_capacity named.old }
    ensures named { named.new.items ≡ named.old.items ++ named_by place point r ∷ [] }
    ensures space { vec_capacity named.new ≡ vec_capacity named.old }
{
    named.push_reserved(Named {
        r,
        head: 0,
        place,
        point,
    });
}

/// Puts one reference or two of a point's leaf.
#[inline]
fn put_pair(named: &mut Vec<Named>, a: Ref, b: Option<Ref>, place: u32, point: Point)
    requires space { length named.old.items + 2 ≤ vec_capacity named.old }
    ensures named { named.new.items ≡ named.old.items ++ map (named_by place point) (a ∷ option_to_list b) }
    ensures few { length named.new.items ≤ length named.old.items + 2 }
    ensures space { vec_capacity named.new ≡ vec_capacity named.old }
{
    put(named, a, place, point);
    match b {
        Some(b) => put(named, b, place, point),
        None => (),
    }
}

/// Puts the references of a word of the list of a point's leaf.
fn put_word(named: &mut Vec<Named>, word: u64, place: u32, point: Point)
    requires refs { (x : Sight) × (hit : Zone → Bool) × (zones : List Zone) × (all : List Ref) × RefsOf x hit zones all × PairAt all word }
    requires space { length named.old.items + 2 ≤ vec_capacity named.old }
    ensures named { (x : Sight) (hit : Zone → Bool) (zones : List Zone) (all : List Ref) → RefsOf x hit zones all → PairAt all word
        → named.new.items ≡ named.old.items ++ map (named_by place point) (take 2 all) }
    ensures few { length named.new.items ≤ length named.old.items + 2 }
    ensures space { vec_capacity named.new ≡ vec_capacity named.old }
{
    match unpack(word) {
        Some((a, b)) => put_pair(named, a, b, place, point),
        None => (),
    }
}

/// Puts the references of the list of a point's leaf, which begins at a place of a row.
fn put_list<W: Words, L: Ledger>(
    words: &mut W,
    row: u32,
    start: u8,
    place: u32,
    point: Point,
    named: &mut Vec<Named>,
    reads: &mut u64,
    steps: &mut Steps<L>,
)
    requires list { (hit : Zone → Bool) × (zones : List Zone) × (all : List Ref) × RefsOf (W.image words.old) hit zones all
        × HasWords (W.image words.old) row start (words_of all) × (length all ≤ 510) }
    requires held { 0 < times (W.image words.old).rows row }
    requires space { length named.old.items + 510 ≤ vec_capacity named.old }
    requires few { reads.old < 2 ^ 60 }
    ensures same { words.new ≡ words.old }
    ensures named { (hit : Zone → Bool) (zones : List Zone) (all : List Ref) → RefsOf (W.image words.old) hit zones all
        → HasWords (W.image words.old) row start (words_of all) → named.new.items ≡ named.old.items ++ map (named_by place point) all }
    ensures few { (hit : Zone → Bool) (zones : List Zone) (all : List Ref) → RefsOf (W.image words.old) hit zones all
        → HasWords (W.image words.old) row start (words_of all) → reads.new ≤ reads.old + length (words_of all) }
    ensures ticks { steps.new + reads.old ≡ steps.old + reads.new }
    ensures space { vec_capacity named.new ≡ vec_capacity named.old }
    ensures long { length named.new.items ≤ length named.old.items + 510 }
    ensures bound { reads.new ≤ reads.old + 256 }
{
    let count = words.word(row, start, steps);
    let pairs = (count + 1) / 2;
    *reads += 1;
    for j in 0..pairs {
        let word = words.word(row, start + 1 + j as u8, steps);
        *reads += 1;
        put_word(named, word, place, point);
    }
}

/// Puts the references that the entry of a point's leaf tells.
#[inline]
pub(crate) fn put_entry<W: Words, L: Ledger>(
    words: &mut W,
    entry: Entry,
    place: u32,
    point: Point,
    named: &mut Vec<Named>,
    reads: &mut u64,
    steps: &mut Steps<L>,
)
    requires tells { (hit : Zone → Bool) × (zones : List Zone) × (all : List Ref) × Tells (W.image words.old) hit zones all entry }
    requires space { length named.old.items + 510 ≤ vec_capacity named.old }
    requires few { reads.old < 2 ^ 60 }
    ensures same { words.new ≡ words.old }
    ensures named { (hit : Zone → Bool) (zones : List Zone) (all : List Ref) → Tells (W.image words.old) hit zones all entry
        → named.new.items ≡ named.old.items ++ map (named_by place point) all }
    ensures few { (hit : Zone → Bool) (zones : List Zone) (all : List Ref) → Tells (W.image words.old) hit zones all entry → reads.new ≤ reads.old + list_reads (length all) }
    ensures ticks { steps.new + reads.old ≡ steps.old + reads.new }
    ensures space { vec_capacity named.new ≡ vec_capacity named.old }
    ensures long { length named.new.items ≤ length named.old.items + 510 }
    ensures bound { reads.new ≤ reads.old + 256 }
{
    match entry {
        Entry::One(a) => put_pair(named, a, None, place, point),
        Entry::Two(a, b) => put_pair(named, a, Some(b), place, point),
        Entry::Table { row, place: start } => {
            put_list(words, row, start, place, point, named, reads, steps)
        }
        Entry::Empty | Entry::Child(_) => (),
    }
}
