//! References of leaves.

ghost use Rattle.std.specs.Prelude.{◌≡◌, ◌+◌, ◌<◌, ◌≤◌, ◌^◌, ◌++◌, ◌∷◌, [], Bool, List, length};
ghost use Rattle.std.specs.Option.{option_to_list};
ghost use Rattle.act_base.specs.Counting.{times};
ghost use Rattle.act_entry.specs.declared.reference.Ref.{Ref};
ghost use Rattle.act_super.specs.Packs.{list_words};
ghost use Rattle.act_super.specs.Stands.{HasWords, words_of};
ghost use Rattle.act_super.specs.declared.entry.Zone.{Zone};
ghost use Rattle.act_probe.specs.Chains.{ChainAt, RefsOf, found_keys, found_reads, ref_reads, with_found};

use crate::chain::test;
use crate::keys::Keys;
use crate::words::Words;
use act_base::Steps;
use act_entry::{Ref, chain_key, unpack};
use act_grid::{Layers, Point};
use std::sync::ledger::Ledger;

/// Puts the key of a reference's zone where it is of the layers and the point is inside, and says how many words were read.
pub(crate) fn take_ref<W: Words, L: Ledger>(
    words: &mut W,
    r: Ref,
    p: Point,
    layers: &Layers,
    out: &mut Keys,
    steps: &mut Steps<L>,
) -> u64
    requires chain { (zone : Zone) × ChainAt (W.image words.old) zone r.row }
    requires room { length out.old < 510 }
    ensures same { words.new ≡ words.old }
    ensures keys { (zone : Zone) → ChainAt (W.image words.old) zone r.row → out.new ≡ with_found layers.now p r.hit zone out.old }
    ensures few { (zone : Zone) → ChainAt (W.image words.old) zone r.row → result ≤ ref_reads layers.now r.hit zone }
    ensures ticks { steps.new ≡ steps.old + result }
    ensures room { length out.new ≤ length out.old + 1 }
    ensures bound { result < 2 ^ 20 }
{
    let head = words.word(r.row, 0, steps);
    let key = chain_key(head);
    if !layers.has(key) {
        return 1;
    }
    if r.hit {
        out.push(key);
        return 1;
    }
    let tested = test(words, r.row, head, p, steps);
    if !tested.inside {
        return 1 + tested.reads;
    }
    out.push(key);
    1 + tested.reads
}

/// Takes one reference or two.
pub(crate) fn take_pair<W: Words, L: Ledger>(
    words: &mut W,
    a: Ref,
    b: Option<Ref>,
    p: Point,
    layers: &Layers,
    out: &mut Keys,
    steps: &mut Steps<L>,
) -> u64
    requires refs { (hit : Zone → Bool) × (zones : List Zone) × RefsOf (W.image words.old) hit zones (a ∷ option_to_list b) }
    requires room { length out.old ≤ 508 }
    ensures same { words.new ≡ words.old }
    ensures keys { (hit : Zone → Bool) (zones : List Zone) → RefsOf (W.image words.old) hit zones (a ∷ option_to_list b)
        → out.new ≡ out.old ++ found_keys layers.now p hit zones }
    ensures few { (hit : Zone → Bool) (zones : List Zone) → RefsOf (W.image words.old) hit zones (a ∷ option_to_list b) → result ≤ found_reads layers.now hit zones }
    ensures ticks { steps.new ≡ steps.old + result }
    ensures room { length out.new ≤ length out.old + 2 }
    ensures bound { result < 2 ^ 21 }
{
    let first = take_ref(words, a, p, layers, out, steps);
    match b {
        Some(b) => {
            let second = take_ref(words, b, p, layers, out, steps);
            first + second
        }
        None => first,
    }
}
