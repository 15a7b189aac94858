//! Lists of references.

ghost use Rattle.std.specs.Prelude.{◌≡◌, ◌+◌, ◌<◌, ◌≤◌, ◌^◌, ◌++◌, [], Bool, List, drop, length};
ghost use Rattle.act_base.specs.Counting.{times};
ghost use Rattle.act_entry.specs.declared.reference.Ref.{Ref};
ghost use Rattle.act_super.specs.declared.entry.Zone.{Zone};
ghost use Rattle.act_super.specs.Stands.{HasWords, words_of};
ghost use Rattle.act_probe.specs.Chains.{PairAt, RefsOf, found_keys, found_reads};

use crate::keys::Keys;
use crate::refs::take_pair;
use crate::words::Words;
use act_base::Steps;
use act_entry::unpack;
use act_grid::{Layers, Point};
use std::sync::ledger::Ledger;

/// Takes the references of a word of a list.
fn take_word<W: Words, L: Ledger>(
    words: &mut W,
    word: u64,
    p: Point,
    layers: &Layers,
    out: &mut Keys,
    steps: &mut Steps<L>,
) -> u64
    requires refs { (hit : Zone → Bool) × (zones : List Zone) × (refs : List Ref) × RefsOf (W.image words.old) hit zones refs × PairAt refs word }
    requires room { length out.old ≤ 508 }
    ensures same { words.new ≡ words.old }
    ensures keys { (hit : Zone → Bool) (zones : List Zone) (refs : List Ref) → RefsOf (W.image words.old) hit zones refs → PairAt refs word
        → out.new ++ found_keys layers.now p hit (drop 2 zones) ≡ out.old ++ found_keys layers.now p hit zones }
    ensures few { (hit : Zone → Bool) (zones : List Zone) (refs : List Ref) → RefsOf (W.image words.old) hit zones refs → PairAt refs word
        → result + found_reads layers.now hit (drop 2 zones) ≤ found_reads layers.now hit zones }
    ensures ticks { steps.new ≡ steps.old + result }
    ensures room { length out.new ≤ length out.old + 2 }
    ensures bound { result < 2 ^ 21 }
{
    match unpack(word) {
        Some((a, b)) => take_pair(words, a, b, p, layers, out, steps),
        None => 0,
    }
}

/// Takes the references of the list that begins at a place of a row.
pub(crate) fn take_list<W: Words, L: Ledger>(
    words: &mut W,
    row: u32,
    place: u8,
    p: Point,
    layers: &Layers,
    out: &mut Keys,
    steps: &mut Steps<L>,
) -> u64
    requires list { (hit : Zone → Bool) × (zones : List Zone) × (refs : List Ref) × RefsOf (W.image words.old) hit zones refs
        × HasWords (W.image words.old) row place (words_of refs) × (length refs ≤ 510) }
    requires held { 0 < times (W.image words.old).rows row }
    requires empty { out.old ≡ [] }
    ensures same { words.new ≡ words.old }
    ensures keys { (hit : Zone → Bool) (zones : List Zone) (refs : List Ref) → RefsOf (W.image words.old) hit zones refs
        → HasWords (W.image words.old) row place (words_of refs) → out.new ≡ found_keys layers.now p hit zones }
    ensures few { (hit : Zone → Bool) (zones : List Zone) (refs : List Ref) → RefsOf (W.image words.old) hit zones refs
        → HasWords (W.image words.old) row place (words_of refs) → result ≤ length (words_of refs) + found_reads layers.now hit zones }
    ensures ticks { steps.new ≡ steps.old + result }
    ensures bound { result < 2 ^ 31 }
{
    let count = words.word(row, place, steps);
    let pairs = (count + 1) / 2;
    let mut reads = 1;
    for j in 0..pairs {
        let word = words.word(row, place + 1 + j as u8, steps);
        reads += 1 + take_word(words, word, p, layers, out, steps);
    }
    reads
}
