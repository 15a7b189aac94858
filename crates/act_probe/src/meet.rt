//! The zones that meet the leaves of points.

ghost use Rattle.std.specs.Prelude.{◌≡◌, ◌+◌, ◌/◌, ◌%◌, ◌<◌, ◌≤◌, ◌^◌, ◌++◌, ◌∷◌, [], All, List, cond, false, filter, length, map};
ghost use Rattle.act_base.specs.Counting.{times};
ghost use Rattle.act_base.specs.Sight.{Sight};
ghost use Rattle.act_probe.specs.Chains.{ChainAt};
ghost use Rattle.act_probe.specs.Batches.{Grows, HasRoom, Holds, Met, is_of};
ghost use Rattle.act_probe.specs.Names.{headed, named_of};

use crate::buffers::{Candidate, Found, Hit, Named};
use crate::words::Words;
use act_base::Steps;
use act_entry::{chain_key, chain_next};
use act_grid::Layers;
use std::sync::ledger::Ledger;

/// Reads the first words of the chains of all references, one right after the other, so that their loads overlap.
pub(crate) fn read_heads<W: Words, L: Ledger>(
    words: &mut W,
    named: &mut [Named],
    steps: &mut Steps<L>,
)
    requires held { All (λ n. 0 < times (W.image words.old).rows n.r.row) named.old }
    ensures same { words.new ≡ words.old }
    ensures heads { named.new ≡ map (headed (W.image words.old)) named.old }
    ensures ticks { steps.new ≡ steps.old + length named.old }
{
    for n in named.iter_mut() {
        n.head = words.word(n.r.row, 0, steps);
    }
}

/// Puts the pair of a point with a zone, and the point as a candidate where the zone is no true hit.
#[inline]
fn put(found: &mut Found, n: &Named)
    requires room { length found.old.hits.items < 2 ^ 32 }
    requires space { HasRoom found.old 1 }
    ensures hits { found.new.hits.items ≡ found.old.hits.items ++ record { point = n.now.place; key = n.now.head / 2 ^ 32 } ∷ [] }
    ensures kept { found.new.kept.items ≡ found.old.kept.items ++ n.now.r.hit ∷ [] }
    ensures candidates { found.new.candidates.items ≡ found.old.candidates.items
        ++ cond n.now.r.hit [] (record { row = n.now.r.row; next = n.now.head % 2 ^ 32; slot = length found.old.hits.items; point = n.now.point; odd = false } ∷ []) }
    ensures reads { found.new.reads ≡ found.old.reads }
    ensures grows { Grows found.old found.new 1 }
{
    let slot = found.hits.len() as u32;
    found.hits.push_reserved(Hit {
        point: n.place,
        key: chain_key(n.head),
    });
    found.kept.push_reserved(n.r.hit);
    if n.r.hit {
        return;
    }
    found.candidates.push_reserved(Candidate {
        row: n.r.row,
        next: chain_next(n.head),
        slot,
        point: n.point,
        odd: false,
    });
}

/// Takes a reference whose zone's first word was read: puts the pair with its zone where it is of the layers.
#[inline]
fn meet(n: &Named, layers: &Layers, found: &mut Found)
    requires room { length found.old.hits.items < 2 ^ 32 }
    requires space { HasRoom found.old 1 }
    ensures ok { (x : Sight) (m : Met) (mets : List Met) → n.now ≡ named_of x m → ChainAt x m.zone m.row → Holds x found.old mets
        → Holds x found.new (mets ++ filter (is_of layers.now) (m ∷ [])) }
    ensures reads { found.new.reads ≡ found.old.reads }
    ensures grows { Grows found.old found.new 1 }
{
    if !layers.has(chain_key(n.head)) {
        return;
    }
    put(found, n);
}

/// Takes references whose zones' first words were read.
pub(crate) fn meet_all(named: &[Named], layers: &Layers, found: &mut Found)
    requires room { length found.old.hits.items + length named.now < 2 ^ 32 }
    requires space { HasRoom found.old (length named.now) }
    ensures ok { (x : Sight) (all : List Met) (mets : List Met) → named.now ≡ map (named_of x) all → All (λ m. ChainAt x m.zone m.row) all → Holds x found.old mets
        → Holds x found.new (mets ++ filter (is_of layers.now) all) }
    ensures reads { found.new.reads ≡ found.old.reads }
    ensures grows { Grows found.old found.new (length named.now) }
{
    for n in named {
        meet(n, layers, found);
    }
}
