//! The candidates of each zone, tested together.

ghost use Rattle.std.specs.Prelude.{◌≡◌, ℕ, ◌+◌, ◌<◌, ◌≤◌, ◌^◌, ◌%◌, All, List, false, length, map, slice_index_or};
ghost use Rattle.act_base.specs.Counting.{times};
ghost use Rattle.act_super.specs.declared.entry.Zone.{Zone};
ghost use Rattle.act_probe.specs.declared.buffers.Candidate.{Candidate};
ghost use Rattle.act_probe.specs.declared.trace.Stage.TheVariants.{Next};
ghost use Rattle.act_probe.specs.Chains.{ChainAt};
ghost use Rattle.act_probe.specs.Reads.{body_reads};
ghost use Rattle.act_probe.specs.Batches.{answered};
ghost use Rattle.act_probe.specs.Sweeps.{Ascends, IsSet, Passes, at_rest};
ghost use Rattle.act_probe.specs.Passes.{HasTaken};

use crate::buffers::Candidate;
use crate::chain::{Chain, LAST_PLACE, MOST_WORDS, begin, take};
use crate::trace::Trace;
use crate::words::Words;
use act_base::Steps;
use std::sync::ledger::Ledger;

/// Takes so many words of a row behind a place for all candidates: vertices, and none is the last one of its ring.
fn pass_row<W: Words, L: Ledger>(
    words: &mut W,
    row: u32,
    place: u8,
    count: u8,
    trace: &mut Trace,
    run: &mut [Candidate],
    steps: &mut Steps<L>,
)
    requires held { 0 < times (W.image words.old).rows row }
    requires within { place + count ≤ 255 }
    requires stage { trace.old.stage ≡ Next }
    requires more { count < trace.old.vertices }
    requires ascends { Ascends run.old }
    requires set { IsSet trace.old run.old }
    ensures same { words.new ≡ words.old }
    ensures passes { (j : ℕ) (d : Candidate) → j < length run.old → Passes (W.image words.old) row place count trace.old (slice_index_or run.old j d) trace.new (slice_index_or run.new j d) }
    ensures rest { map at_rest run.new ≡ map at_rest run.old }
    ensures ascends { Ascends run.new }
    ensures set { IsSet trace.new run.new }
    ensures stage { trace.new.stage ≡ Next }
    ensures ticks { steps.new ≡ steps.old + count }
{
    let mut now = *trace;
    for i in 0..count {
        let word = words.word(row, place + 1 + i, steps);
        now.feed_inner(word, run);
    }
    *trace = now;
}

/// Takes the vertices that stand in the row at hand, up to the last one of their ring, and says how many words it took.
fn pass<W: Words, L: Ledger>(
    words: &mut W,
    first: u32,
    chain: &mut Chain,
    trace: &mut Trace,
    run: &mut [Candidate],
    steps: &mut Steps<L>,
) -> u64
    requires on { (zones : ℕ → Zone) × (origin : List Candidate) × (all : All (λ c. ChainAt (W.image words.old) (zones c.slot) first) origin) × (k : ℕ) × (0 < length origin)
        × HasTaken (W.image words.old) first zones origin all chain.old trace.old run.old k }
    requires ascends { Ascends run.old }
    requires set { IsSet trace.old run.old }
    ensures same { words.new ≡ words.old }
    ensures on { (zones : ℕ → Zone) (origin : List Candidate) (all : All (λ c. ChainAt (W.image words.old) (zones c.slot) first) origin) (k : ℕ) → length run.old ≡ length origin
        → HasTaken (W.image words.old) first zones origin all chain.old trace.old run.old k → HasTaken (W.image words.old) first zones origin all chain.new trace.new run.new (k + result) }
    ensures rest { map at_rest run.new ≡ map at_rest run.old }
    ensures ascends { Ascends run.new }
    ensures set { IsSet trace.new run.new }
    ensures stage { trace.new.stage ≡ trace.old.stage }
    ensures passed { chain.new.passed ≡ chain.old.passed }
    ensures place { chain.old.place ≤ chain.new.place }
    ensures ticks { steps.new ≡ steps.old + result }
    ensures few { result ≤ 255 }
{
    let left = LAST_PLACE - chain.place;
    let count = trace.ahead().min(u64::from(left)) as u8;
    if count == 0 {
        return 0;
    }
    pass_row(words, chain.row, chain.place, count, trace, run, steps);
    chain.place += count;
    u64::from(count)
}

/// Tests the candidates of the zone whose chain begins at the row and goes on at the next one. The words of
/// its polygon are read once.
pub(crate) fn sweep<W: Words, L: Ledger>(
    words: &mut W,
    row: u32,
    next: u32,
    run: &mut [Candidate],
    reads: &mut u64,
    steps: &mut Steps<L>,
)
    requires chains { (zones : ℕ → Zone) × All (λ c. ChainAt (W.image words.old) (zones c.slot) row) run.old }
    requires next { next ≡ (W.image words.old).word row 0 % 2 ^ 32 }
    requires some { 0 < length run.old }
    requires even { All (λ c. c.odd ≡ false) run.old }
    requires ascends { Ascends run.old }
    requires room { reads.old < 2 ^ 60 }
    ensures same { words.new ≡ words.old }
    ensures odd { (zones : ℕ → Zone) → All (λ c. ChainAt (W.image words.old) (zones c.slot) row) run.old → run.new ≡ map (answered zones) run.old }
    ensures few { (zones : ℕ → Zone) → All (λ c. ChainAt (W.image words.old) (zones c.slot) row) run.old
        → (k : ℕ) (d : Candidate) → k < length run.old → reads.new ≤ reads.old + body_reads (zones (slice_index_or run.old k d).slot) }
    ensures ticks { steps.new + reads.old ≡ steps.old + reads.new }
    ensures bound { reads.new ≤ reads.old + 699052 }
{
    let mut trace = Trace::start();
    let mut chain = begin(row, next);
    let mut k = 0;
    while k < MOST_WORDS {
        let word = take(&mut chain, row, words, steps);
        k += 1;
        if trace.feed(word, run) {
            *reads += k + chain.passed;
            return;
        }
        k += pass(words, row, &mut chain, &mut trace, run, steps);
    }
    // No body has more words.
    *reads += k + chain.passed;
}
