//! The pairs of a batch of points with the zones that hold them.

ghost use Rattle.std.specs.Prelude.{◌≡◌, ℕ, ◌+◌, ◌*◌, ◌<◌, ◌≤◌, ◌^◌, ◌++◌, ◌∷◌, [], All, IfOk, List, OnOk, length, map, sum_by, vec_capacity};
ghost use Rattle.act_grid.specs.declared.Point.{Point};
ghost use Rattle.act_grid.specs.declared.Settings.{Settings};
ghost use Rattle.act_super.specs.declared.entry.State.{State};
ghost use Rattle.act_super.specs.Joins.{join};
ghost use Rattle.act_super.specs.Stands.{Stands};
ghost use Rattle.act_probe.specs.Reads.{reads_of};
ghost use Rattle.act_probe.specs.Groups.{IsDown};
ghost use Rattle.act_probe.specs.Batches.{Gathers, HasRoom, hits_in};
ghost use Rattle.act_probe.specs.Names.{leaf_reads, named_at, named_from};

use crate::buffers::{Buffers, Found, Named};
use crate::descent::entry_in;
use crate::group::{Way, descend_all};
use crate::keys::MOST_KEYS;
use crate::meet::{meet_all, read_heads};
use crate::names::put_entry;
use crate::settle::finish;
use crate::words::Words;
use act_base::Steps;
use act_grid::{Layers, NoMemory, Point};
use std::sync::ledger::Ledger;

/// The points that go down together: enough that their loads overlap.
const GROUP: usize = 64;

/// Puts the references of the leaf that a way has reached.
#[inline]
fn name_way<W: Words, L: Ledger>(
    words: &mut W,
    way: &Way,
    place: u32,
    named: &mut Vec<Named>,
    reads: &mut u64,
    steps: &mut Steps<L>,
)
    requires down { (root : ℕ) × (settings : Settings) × (state : State) × (s : Stands settings (W.image words.old) root state)
        × IsDown settings state s.layout way.now }
    requires space { length named.old.items + 510 ≤ vec_capacity named.old }
    requires few { reads.old < 2 ^ 60 }
    ensures same { words.new ≡ words.old }
    ensures named { (root : ℕ) (settings : Settings) (state : State) (s : Stands settings (W.image words.old) root state)
        → IsDown settings state s.layout way.now → named.new.items ≡ named.old.items ++ named_at s.layout settings state place way.now.point }
    ensures few { (root : ℕ) (settings : Settings) (state : State) (s : Stands settings (W.image words.old) root state)
        → IsDown settings state s.layout way.now → reads.new + way.now.nodes ≤ reads.old + leaf_reads settings state way.now.point }
    ensures ticks { steps.new + reads.old ≡ steps.old + reads.new }
    ensures space { vec_capacity named.new ≡ vec_capacity named.old }
    ensures long { length named.new.items ≤ length named.old.items + 510 }
    ensures bound { reads.new ≤ reads.old + 256 }
{
    let entry = entry_in(way.word);
    put_entry(words, entry, place, way.point, named, reads, steps);
}

/// Puts the references of the leaves that the ways of a group have reached.
fn name_ways<W: Words, L: Ledger>(
    words: &mut W,
    first: u32,
    ways: &[Way],
    named: &mut Vec<Named>,
    reads: &mut u64,
    steps: &mut Steps<L>,
)
    requires down { (root : ℕ) × (settings : Settings) × (state : State) × (s : Stands settings (W.image words.old) root state)
        × All (IsDown settings state s.layout) ways.now }
    requires places { first + length ways.now ≤ 8192 }
    requires space { length named.old.items + 510 * length ways.now ≤ vec_capacity named.old }
    requires few { reads.old + 256 * length ways.now < 2 ^ 60 }
    ensures same { words.new ≡ words.old }
    ensures named { (root : ℕ) (settings : Settings) (state : State) (s : Stands settings (W.image words.old) root state) → All (IsDown settings state s.layout) ways.now
        → named.new.items ≡ named.old.items ++ named_from s.layout settings state first (map (λ way. way.point) ways.now) }
    ensures few { (root : ℕ) (settings : Settings) (state : State) (s : Stands settings (W.image words.old) root state) → All (IsDown settings state s.layout) ways.now
        → reads.new + sum_by (λ way. way.nodes) ways.now ≤ reads.old + sum_by (leaf_reads settings state) (map (λ way. way.point) ways.now) }
    ensures ticks { steps.new + reads.old ≡ steps.old + reads.new }
    ensures long { length named.new.items ≤ length named.old.items + 510 * length ways.now }
    ensures bound { reads.new ≤ reads.old + 256 * length ways.now }
{
    for (i, way) in ways.iter().enumerate() {
        name_way(words, way, first + i as u32, named, reads, steps);
    }
}

/// Makes room for all that so many points can add, and lets go of the references of the last group.
fn reserve_for(found: &mut Found, named: &mut Vec<Named>, count: usize) -> Result<(), NoMemory>
    requires few { count ≤ 8192 }
    ensures hits { found.new.hits.items ≡ found.old.hits.items }
    ensures kept { found.new.kept.items ≡ found.old.kept.items }
    ensures candidates { found.new.candidates.items ≡ found.old.candidates.items }
    ensures reads { found.new.reads ≡ found.old.reads }
    ensures space { OnOk result (HasRoom found.new (510 * count)) }
    ensures named { OnOk result (named.new.items ≡ []) }
    ensures named_space { OnOk result (510 * count ≤ vec_capacity named.new) }
{
    let most = MOST_KEYS * count;
    named.clear();
    named.reserve(most)?;
    found.hits.reserve(most)?;
    found.kept.reserve(most)?;
    found.candidates.reserve(most)?;
    Ok(())
}

/// Takes a group of points, whose first has this place in its batch.
fn meet_group<W: Words, L: Ledger>(
    words: &mut W,
    root: u32,
    first: u32,
    points: &[Point],
    layers: &Layers,
    buffers: &mut Buffers,
    steps: &mut Steps<L>,
) -> Result<(), NoMemory>
    requires stands { (settings : Settings) × (state : State) × Stands settings (W.image words.old) root state }
    requires places { first + length points.now ≤ 8192 }
    requires room { length buffers.old.found.hits.items + 510 * length points.now < 2 ^ 31 }
    requires few { buffers.old.found.reads + 781 * length points.now < 2 ^ 59 }
    ensures same { words.new ≡ words.old }
    ensures ok { OnOk result ((settings : Settings) (state : State) → Stands settings (W.image words.old) root state → (before : List Point) → length before ≡ first
        → Gathers (W.image words.old) settings state layers.now before buffers.old.found
        → Gathers (W.image words.old) settings state layers.now (before ++ points.now) buffers.new.found) }
    ensures few { (settings : Settings) (state : State) → Stands settings (W.image words.old) root state
        → buffers.new.found.reads ≤ buffers.old.found.reads + sum_by (λ p. reads_of settings state p layers.now) points.now }
    ensures ticks { steps.new + buffers.old.found.reads ≡ steps.old + buffers.new.found.reads }
    ensures room { OnOk result (length buffers.new.found.hits.items ≤ length buffers.old.found.hits.items + 510 * length points.now) }
    ensures bound { buffers.new.found.reads ≤ buffers.old.found.reads + 780 * length points.now }
{
    reserve_for(&mut buffers.found, &mut buffers.named, points.len())?;
    descend_all(
        words,
        root,
        points,
        &mut buffers.ways,
        &mut buffers.found.reads,
        steps,
    )?;
    name_ways(
        words,
        first,
        &buffers.ways,
        &mut buffers.named,
        &mut buffers.found.reads,
        steps,
    );
    read_heads(words, &mut buffers.named, steps);
    buffers.found.reads += buffers.named.len() as u64;
    meet_all(&buffers.named, layers, &mut buffers.found);
    Ok(())
}

/// Lets go of what was found for the last batch.
fn clear(found: &mut Found)
    ensures hits { found.new.hits.items ≡ [] }
    ensures kept { found.new.kept.items ≡ [] }
    ensures candidates { found.new.candidates.items ≡ [] }
    ensures reads { found.new.reads ≡ 0 }
{
    found.hits.clear();
    found.kept.clear();
    found.candidates.clear();
    found.reads = 0;
}

/// Gathers the zones that meet the leaves of the points.
fn gather<W: Words, L: Ledger>(
    words: &mut W,
    root: u32,
    points: &[Point],
    layers: &Layers,
    buffers: &mut Buffers,
    steps: &mut Steps<L>,
) -> Result<(), NoMemory>
    requires stands { (settings : Settings) × (state : State) × Stands settings (W.image words.old) root state }
    requires places { length points.now ≤ 8192 }
    ensures same { words.new ≡ words.old }
    ensures ok { OnOk result ((settings : Settings) (state : State) → Stands settings (W.image words.old) root state
        → Gathers (W.image words.old) settings state layers.now points.now buffers.new.found) }
    ensures few { (settings : Settings) (state : State) → Stands settings (W.image words.old) root state
        → buffers.new.found.reads ≤ sum_by (λ p. reads_of settings state p layers.now) points.now }
    ensures ticks { steps.new ≡ steps.old + buffers.new.found.reads }
    ensures room { OnOk result (length buffers.new.found.hits.items ≤ 510 * length points.now) }
    ensures bound { buffers.new.found.reads ≤ 780 * length points.now }
{
    clear(&mut buffers.found);
    let groups = (points.len() + GROUP - 1) / GROUP;
    for k in 0..groups {
        let start = k * GROUP;
        let end = (start + GROUP).min(points.len());
        let group = &points[start..end];
        meet_group(words, root, start as u32, group, layers, buffers, steps)?;
    }
    Ok(())
}

/// Puts the pairs of each point with each zone of the layers that it is inside, by points and then in the order of the
/// zones, in place of those of the last batch, and says how many words of rows were read. Memory may run out as the
/// buffers grow; the pairs mean nothing then.
pub fn probe_batch<W: Words, L: Ledger>(
    words: &mut W,
    root: u32,
    points: &[Point],
    layers: Layers,
    buffers: &mut Buffers,
    steps: &mut Steps<L>,
) -> Result<u64, NoMemory>
    // The words stand for some state.
    requires stands { (settings : Settings) × (state : State) × Stands settings (W.image words.old) root state }
    requires few { length points.now ≤ 8192 }
    ensures same { words.new ≡ words.old }
    // The pairs are those of each state for which the words stand.
    ensures hits { OnOk result ((settings : Settings) (state : State) → Stands settings (W.image words.old) root state → hits_in buffers.new ≡ join layers state.zones points.now) }
    // There are at most 510 a point.
    ensures room { OnOk result (length buffers.new.found.hits.items ≤ 510 * length points.now) }
    // Want of memory or not, no more words are read than for the points one by one.
    ensures few { (settings : Settings) (state : State) → Stands settings (W.image words.old) root state
        → buffers.new.found.reads ≤ sum_by (λ p. reads_of settings state p layers) points.now }
    ensures reads { IfOk result (λ reads. reads ≡ buffers.new.found.reads) }
    ensures ticks { steps.new ≡ steps.old + buffers.new.found.reads }
    ensures bound { buffers.new.found.reads < 2 ^ 48 }
{
    gather(words, root, points, &layers, buffers, steps)?;
    finish(words, &mut buffers.found, steps)?;
    Ok(buffers.found.reads)
}
