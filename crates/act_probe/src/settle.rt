//! Candidates are tested, and the pairs of the answer kept.

ghost use Rattle.std.specs.Prelude.{◌≡◌, ℕ, ◌+◌, ◌*◌, ◌<◌, ◌≤◌, ◌^◌, All, Bool, List, OnOk, length, map, sum_by, take};
ghost use Rattle.act_grid.specs.declared.Layers.{Layers};
ghost use Rattle.act_grid.specs.declared.Point.{Point};
ghost use Rattle.act_grid.specs.declared.Settings.{Settings};
ghost use Rattle.act_super.specs.declared.entry.State.{State};
ghost use Rattle.act_super.specs.declared.entry.Zone.{Zone};
ghost use Rattle.act_super.specs.Joins.{join};
ghost use Rattle.act_probe.specs.Reads.{body_reads, reads_of};
ghost use Rattle.act_probe.specs.Sweeps.{Ascends, IsRun, RunsAscend};
ghost use Rattle.act_probe.specs.Batches.{Asks, Gathers, Settles, answered, chosen, hit_of};

use crate::buffers::{Candidate, Found, Hit};
use crate::order::order;
use crate::words::Words;
use crate::zones::sweep;
use act_base::Steps;
use act_grid::NoMemory;
use std::sync::ledger::Ledger;

/// Where the candidates of a zone end that begin at a place.
fn run_end(candidates: &[Candidate], start: usize) -> usize
    requires { start < length candidates.now }
    ensures more { start < result }
    ensures within { result ≤ length candidates.now }
    ensures rows { IsRun candidates.now start result }
{
    let row = candidates[start].row;
    let mut end = start + 1;
    while end < candidates.len() && candidates[end].row == row {
        end += 1;
    }
    end
}

/// Tests candidates of one zone.
fn resolve_zone<W: Words, L: Ledger>(
    words: &mut W,
    run: &mut [Candidate],
    reads: &mut u64,
    steps: &mut Steps<L>,
)
    requires asks { (zones : ℕ → Zone) × All (λ c. Asks (W.image words.old) (zones c.slot) c) run.old }
    requires some { 0 < length run.old }
    requires rows { IsRun run.old 0 (length run.old) }
    requires ascends { Ascends run.old }
    requires room { reads.old + 699052 * length run.old < 2 ^ 60 }
    ensures same { words.new ≡ words.old }
    ensures odd { (zones : ℕ → Zone) → All (λ c. Asks (W.image words.old) (zones c.slot) c) run.old → run.new ≡ map (answered zones) run.old }
    ensures few { (zones : ℕ → Zone) → All (λ c. Asks (W.image words.old) (zones c.slot) c) run.old
        → reads.new ≤ reads.old + sum_by (λ c. body_reads (zones c.slot)) run.old }
    ensures ticks { steps.new + reads.old ≡ steps.old + reads.new }
    ensures bound { reads.new ≤ reads.old + 699052 * length run.old }
{
    let first = run[0];
    sweep(words, first.row, first.next, run, reads, steps);
}

/// Tests the candidates, zone by zone. The words of a zone are read once.
fn resolve<W: Words, L: Ledger>(
    words: &mut W,
    candidates: &mut [Candidate],
    reads: &mut u64,
    steps: &mut Steps<L>,
)
    requires asks { (zones : ℕ → Zone) × All (λ c. Asks (W.image words.old) (zones c.slot) c) candidates.old }
    requires ascends { RunsAscend candidates.old }
    requires room { reads.old + 699052 * length candidates.old < 2 ^ 60 }
    ensures same { words.new ≡ words.old }
    ensures odd { (zones : ℕ → Zone) → All (λ c. Asks (W.image words.old) (zones c.slot) c) candidates.old → candidates.new ≡ map (answered zones) candidates.old }
    ensures few { (zones : ℕ → Zone) → All (λ c. Asks (W.image words.old) (zones c.slot) c) candidates.old
        → reads.new ≤ reads.old + sum_by (λ c. body_reads (zones c.slot)) candidates.old }
    ensures ticks { steps.new + reads.old ≡ steps.old + reads.new }
    ensures bound { reads.new ≤ reads.old + 699052 * length candidates.old }
{
    let mut start = 0;
    while start < candidates.len() {
        let end = run_end(candidates, start);
        resolve_zone(words, &mut candidates[start..end], reads, steps);
        start = end;
    }
}

/// Keeps the pairs of the candidates that were found inside.
fn keep(kept: &mut [bool], candidates: &[Candidate])
    requires { All (λ c. c.slot < length kept.old) candidates.now }
    ensures { (answers : List Bool) → Settles kept.old answers candidates.now → kept.new ≡ answers }
{
    for candidate in candidates {
        kept[candidate.slot as usize] = candidate.odd;
    }
}

/// Moves the pairs that are kept to the front, and says how many there are.
fn shift(hits: &mut [Hit], kept: &[bool]) -> usize
    requires { length kept.now ≡ length hits.old }
    ensures few { result ≤ length hits.old }
    ensures front { take result hits.new ≡ chosen kept.now hits.old }
{
    let mut to = 0;
    for (i, keep) in kept.iter().enumerate() {
        hits[to] = hits[i];
        if *keep {
            to += 1;
        }
    }
    to
}

/// Lets go of the pairs that aren't kept.
fn compact(hits: &mut Vec<Hit>, kept: &[bool])
    requires { length kept.now ≡ length hits.old.items }
    ensures hits { hits.new.items ≡ chosen kept.now hits.old.items }
    ensures few { length hits.new.items ≤ length hits.old.items }
{
    let to = shift(hits, kept);
    hits.truncate(to);
}

/// Tests the candidates, and keeps the pairs of the answer.
pub(crate) fn finish<W: Words, L: Ledger>(
    words: &mut W,
    found: &mut Found,
    steps: &mut Steps<L>,
) -> Result<(), NoMemory>
    requires gathers { (settings : Settings) × (state : State) × (layers : Layers) × (points : List Point) × Gathers (W.image words.old) settings state layers points found.old }
    requires room { length found.old.hits.items ≤ 2 ^ 23 }
    requires few { found.old.reads ≤ 2 ^ 23 }
    ensures same { words.new ≡ words.old }
    ensures hits { OnOk result ((settings : Settings) (state : State) (layers : Layers) (points : List Point) → Gathers (W.image words.old) settings state layers points found.old
        → map hit_of found.new.hits.items ≡ join layers state.zones points) }
    ensures few { (settings : Settings) (state : State) (layers : Layers) (points : List Point) → Gathers (W.image words.old) settings state layers points found.old
        → found.new.reads ≤ sum_by (λ p. reads_of settings state p layers) points }
    ensures room { length found.new.hits.items ≤ length found.old.hits.items }
    ensures ticks { steps.new + found.old.reads ≡ steps.old + found.new.reads }
    ensures bound { found.new.reads < 2 ^ 48 }
{
    order(
        &mut found.candidates,
        &mut found.keys,
        &mut found.dealt,
        &mut found.spare,
    )?;
    resolve(words, &mut found.candidates, &mut found.reads, steps);
    keep(&mut found.kept, &found.candidates);
    compact(&mut found.hits, &found.kept);
    Ok(())
}
