//! Polygons in their chains of rows.

ghost use Rattle.std.specs.Prelude.{◌≡◌, ◌+◌, ◌<◌, ◌≤◌, ◌%◌, ◌^◌, ℕ, length, slice_index};
ghost use Rattle.act_super.specs.declared.entry.Zone.{Zone};
ghost use Rattle.act_geom.specs.Body.{body_of};
ghost use Rattle.act_geom.specs.Inside.{is_inside};
ghost use Rattle.act_probe.specs.Chains.{ChainAt, IsAt};
ghost use Rattle.act_probe.specs.Reads.{body_reads};

use crate::words::Words;
use act_base::Steps;
use act_entry::chain_next;
use act_geom::Walk;
use act_grid::Point;
use std::sync::ledger::Ledger;

/// The words of the greatest body: of 87,381 rings with 262,144 vertices.
pub(crate) const MOST_WORDS: u64 = 349_526;

/// The last place of a row.
pub(crate) const LAST_PLACE: u8 = 255;

/// A place in a chain of rows.
#[derive(Clone, Copy, Debug, PartialEq, Eq)]
pub(crate) struct Chain {
    pub row: u32,
    next: u32,
    // How many rows were passed, and the place of the last word that was read.
    pub passed: u64,
    pub place: u8,
}

/// The place before the body in the chain that begins at a row and goes on at the next one.
pub(crate) fn begin(row: u32, next: u32) -> Chain
    ensures row { result.row ≡ row }
    ensures next { result.next ≡ next }
    ensures passed { result.passed ≡ 0 }
    ensures place { result.place ≡ 0 }
{
    Chain {
        row,
        next,
        passed: 0,
        place: 0,
    }
}

/// The next word of a body.
pub(crate) fn take<W: Words, L: Ledger>(
    chain: &mut Chain,
    first: u32,
    words: &mut W,
    steps: &mut Steps<L>,
) -> u64
    requires { (zone : Zone) × (c : ChainAt (W.image words.old) zone first) × (k : ℕ) × (k < length (body_of zone.shape)) × IsAt (W.image words.old) zone first c chain.old.row chain.old.next chain.old.passed chain.old.place k }
    ensures same { words.new ≡ words.old }
    ensures word { (zone : Zone) (c : ChainAt (W.image words.old) zone first) (k : ℕ) → k < length (body_of zone.shape)
        → IsAt (W.image words.old) zone first c chain.old.row chain.old.next chain.old.passed chain.old.place k
        → (result ≡ slice_index (body_of zone.shape) k) × IsAt (W.image words.old) zone first c chain.new.row chain.new.next chain.new.passed chain.new.place (k + 1) }
    ensures ticks { steps.new + chain.old.passed ≡ steps.old + 1 + chain.new.passed }
    ensures place { 0 < chain.new.place }
    ensures passed { chain.new.passed ≤ chain.old.passed + 1 }
{
    if chain.place < LAST_PLACE {
        chain.place += 1;
        return words.word(chain.row, chain.place, steps);
    }
    chain.row = chain.next;
    chain.next = chain_next(words.word(chain.row, 0, steps));
    chain.passed += 1;
    chain.place = 1;
    words.word(chain.row, 1, steps)
}

/// What a test of a point found, and how many words it read.
#[derive(Clone, Copy, Debug, PartialEq, Eq)]
pub(crate) struct Tested {
    pub inside: bool,
    pub reads: u64,
}

/// Whether the point is inside the polygon whose chain begins at the row, whose first word was read already.
pub(crate) fn test<W: Words, L: Ledger>(
    words: &mut W,
    row: u32,
    head: u64,
    p: Point,
    steps: &mut Steps<L>,
) -> Tested
    requires chain { (zone : Zone) × ChainAt (W.image words.old) zone row }
    requires head { head ≡ (W.image words.old).word row 0 }
    ensures same { words.new ≡ words.old }
    ensures inside { (zone : Zone) → ChainAt (W.image words.old) zone row → result.inside ≡ is_inside zone.shape p }
    ensures few { (zone : Zone) → ChainAt (W.image words.old) zone row → result.reads ≤ body_reads zone }
    ensures ticks { steps.new ≡ steps.old + result.reads }
    ensures bound { result.reads ≤ 699052 }
{
    let mut walk = Walk::start(p);
    let mut chain = Chain {
        row,
        next: chain_next(head),
        passed: 0,
        place: 0,
    };
    for k in 0..MOST_WORDS {
        let word = take(&mut chain, row, words, steps);
        if let Some(inside) = walk.feed(word) {
            let reads = k + 1 + chain.passed;
            return Tested { inside, reads };
        }
    }
    // No body has more words.
    let reads = MOST_WORDS + chain.passed;
    Tested {
        inside: false,
        reads,
    }
}
