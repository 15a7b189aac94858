//! The zones that hold a point.

ghost use Rattle.std.specs.Prelude.{◌≡◌, ◌+◌, ◌<◌, ◌≤◌, ◌^◌, [], Bool, List, length, map};
ghost use Rattle.act_grid.specs.declared.Settings.{Settings};
ghost use Rattle.act_entry.specs.declared.reference.Ref.{Ref};
ghost use Rattle.act_super.specs.declared.entry.State.{State};
ghost use Rattle.act_super.specs.declared.entry.Zone.{Zone};
ghost use Rattle.act_super.specs.Joins.{zones_at};
ghost use Rattle.act_super.specs.Stands.{Stands};
ghost use Rattle.act_probe.specs.Chains.{Tells, found_keys, found_reads};
ghost use Rattle.act_probe.specs.Reads.{list_reads, reads_of};

use crate::descent::descend;
use crate::keys::Keys;
use crate::list::take_list;
use crate::refs::take_pair;
use crate::words::Words;
use act_base::Steps;
use act_entry::Entry;
use act_grid::{Layers, Point};
use std::sync::ledger::Ledger;

/// Takes the references that an entry tells.
fn take_entry<W: Words, L: Ledger>(
    words: &mut W,
    entry: Entry,
    p: Point,
    layers: &Layers,
    out: &mut Keys,
    steps: &mut Steps<L>,
) -> u64
    requires tells { (hit : Zone → Bool) × (zones : List Zone) × (refs : List Ref) × Tells (W.image words.old) hit zones refs entry }
    requires empty { out.old ≡ [] }
    ensures same { words.new ≡ words.old }
    ensures keys { (hit : Zone → Bool) (zones : List Zone) (refs : List Ref) → Tells (W.image words.old) hit zones refs entry → out.new ≡ found_keys layers.now p hit zones }
    ensures few { (hit : Zone → Bool) (zones : List Zone) (refs : List Ref) → Tells (W.image words.old) hit zones refs entry
        → result ≤ list_reads (length refs) + found_reads layers.now hit zones }
    ensures ticks { steps.new ≡ steps.old + result }
    ensures bound { result < 2 ^ 31 }
{
    match entry {
        Entry::One(a) => take_pair(words, a, None, p, layers, out, steps),
        Entry::Two(a, b) => take_pair(words, a, Some(b), p, layers, out, steps),
        Entry::Table { row, place } => take_list(words, row, place, p, layers, out, steps),
        Entry::Empty | Entry::Child(_) => 0,
    }
}

/// Puts the ascending keys of all zones of the layers that the point is inside, and says how many
/// words of rows were read: a word for each node on the way to the leaf, those of its list, one for
/// each reference, and for each candidate of the layers those of its polygon.
pub fn probe<W: Words, L: Ledger>(
    words: &mut W,
    root: u32,
    p: Point,
    layers: Layers,
    out: &mut Keys,
    steps: &mut Steps<L>,
) -> u64
    // The words stand for some state.
    requires stands { (settings : Settings) × (state : State) × Stands settings (W.image words.old) root state }
    ensures same { words.new ≡ words.old }
    // The answer is that of each state for which the words stand.
    ensures keys { (settings : Settings) (state : State) → Stands settings (W.image words.old) root state → out.new ≡ map (λ zone. zone.key) (zones_at layers state.zones p) }
    ensures few { (settings : Settings) (state : State) → Stands settings (W.image words.old) root state → result ≤ reads_of settings state p layers }
    ensures ticks { steps.new ≡ steps.old + result }
    ensures bound { result < 2 ^ 32 }
{
    out.clear();
    let reached = descend(words, root, p, steps);
    let reads = take_entry(words, reached.entry, p, &layers, out, steps);
    reached.nodes + reads
}
