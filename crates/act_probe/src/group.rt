//! The ways down to the leaves of a group of points, one level at a time.

ghost use Rattle.std.specs.Prelude.{◌≡◌, ℕ, ◌+◌, ◌*◌, ◌<◌, ◌≤◌, ◌^◌, ◌/◌, ◌%◌, ◌-◌, All, OnErr, OnOk, length, map, sum_by, true};
ghost use Rattle.act_grid.specs.declared.Settings.{Settings};
ghost use Rattle.act_super.specs.declared.entry.State.{State};
ghost use Rattle.act_super.specs.Stands.{Stands};
ghost use Rattle.act_probe.specs.Ways.{IsTop};
ghost use Rattle.act_probe.specs.Groups.{Goes, IsDown, led};

use crate::descent::{MOST_NODES, child, entry_in, entry_place, top};
use crate::words::Words;
use act_base::Steps;
use act_entry::{Entry, encode};
use act_grid::{NoMemory, Point};
use std::sync::ledger::Ledger;

/// How far a point has come down: how many nodes were read, and the word that was read last.
#[derive(Clone, Copy, Debug, PartialEq, Eq)]
pub(crate) struct Way {
    pub point: Point,
    pub nodes: u64,
    pub word: u64,
    // The cell of level 30 that holds the point.
    id: u64,
}

/// The word that was read last on a way that several points have, and how many nodes were read.
#[derive(Clone, Copy, Debug, PartialEq, Eq)]
struct Trunk {
    word: u64,
    nodes: u32,
}

/// Reads the word of the node that a way has come to, and says how many words were read. A way that has the word of its leaf waits.
#[inline]
fn go<W: Words, L: Ledger>(words: &mut W, way: &mut Way, depth: u32, steps: &mut Steps<L>) -> u64
    requires goes { (root : ℕ) × (settings : Settings) × (state : State) × (s : Stands settings (W.image words.old) root state) × Goes settings state s.layout depth way.old }
    requires depth { depth ≤ 6 }
    ensures same { words.new ≡ words.old }
    ensures goes { (root : ℕ) (settings : Settings) (state : State) (s : Stands settings (W.image words.old) root state) → Goes settings state s.layout depth way.old
        → Goes settings state s.layout (depth + 1) way.new }
    ensures none { result ≡ 0 → way.new ≡ way.old }
    ensures count { way.new.nodes ≡ way.old.nodes + result }
    ensures ticks { steps.new ≡ steps.old + result }
    ensures point { way.new.point ≡ way.old.point }
    ensures bound { result ≤ 1 }
{
    match child(&entry_in(way.word)) {
        Some(row) => {
            way.word = words.word(row, entry_place(way.id, 4 * depth), steps);
            way.nodes += 1;
            1
        }
        None => 0,
    }
}

/// Goes down one level with all the ways that haven't reached their leaves, and says how many words were read.
/// None waits for the word of another, so their loads overlap.
fn level<W: Words, L: Ledger>(
    words: &mut W,
    ways: &mut [Way],
    depth: u32,
    steps: &mut Steps<L>,
) -> u64
    requires go { (root : ℕ) × (settings : Settings) × (state : State) × (s : Stands settings (W.image words.old) root state) × All (Goes settings state s.layout depth) ways.old }
    requires depth { depth ≤ 6 }
    ensures same { words.new ≡ words.old }
    ensures go { (root : ℕ) (settings : Settings) (state : State) (s : Stands settings (W.image words.old) root state) → All (Goes settings state s.layout depth) ways.old
        → All (Goes settings state s.layout (depth + 1)) ways.new }
    ensures none { result ≡ 0 → ways.new ≡ ways.old }
    ensures count { sum_by (λ way. way.nodes) ways.new ≡ sum_by (λ way. way.nodes) ways.old + result }
    ensures ticks { steps.new ≡ steps.old + result }
    ensures points { map (λ way. way.point) ways.new ≡ map (λ way. way.point) ways.old }
    ensures bound { result ≤ length ways.old }
{
    let mut reads = 0;
    for way in ways.iter_mut() {
        reads += go(words, way, depth, steps);
    }
    reads
}

/// Begins the way of each point of a group, before any node.
fn begin(points: &[Point], ways: &mut Vec<Way>) -> Result<(), NoMemory>
    ensures points { OnOk result (map (λ way. way.point) ways.new.items ≡ points.now) }
    ensures tops { OnOk result (All (λ way. IsTop way.id way.point) ways.new.items) }
{
    ways.clear();
    for p in points {
        let point = *p;
        ways.push(Way {
            point,
            nodes: 0,
            word: 0,
            id: top(point),
        })?;
    }
    Ok(())
}

/// Whether all ways lead to one place of a node of a depth.
fn is_shared(ways: &[Way], depth: u32, place: u8) -> bool
    requires { depth ≤ 6 }
    ensures { result ≡ true → All (λ way. place ≡ way.id / 2 ^ (53 - 2 * (4 * depth)) % 256) ways.now }
{
    for way in ways {
        if entry_place(way.id, 4 * depth) != place {
            return false;
        }
    }
    true
}

/// Goes down from the root node as far as all ways lead the same way: each word serves for all. It says the word that was
/// read last, and how many were read.
fn go_together<W: Words, L: Ledger>(
    words: &mut W,
    root: u32,
    ways: &[Way],
    reads: &mut u64,
    steps: &mut Steps<L>,
) -> Trunk
    requires stands { (settings : Settings) × (state : State) × Stands settings (W.image words.old) root state }
    requires tops { All (λ way. IsTop way.id way.point) ways.now }
    requires room { reads.old < 2 ^ 61 }
    ensures same { words.new ≡ words.old }
    ensures goes { (settings : Settings) (state : State) (s : Stands settings (W.image words.old) root state) → All (λ way. Goes settings state s.layout result.nodes (led result way)) ways.now }
    ensures count { reads.new ≡ reads.old + result.nodes }
    ensures ticks { steps.new ≡ steps.old + result.nodes }
    ensures bound { result.nodes ≤ 7 }
    ensures some { 0 < result.nodes → 0 < length ways.now }
{
    let mut trunk = Trunk {
        word: encode(&Entry::Child(root)),
        nodes: 0,
    };
    if ways.len() == 0 {
        return trunk;
    }
    let id = ways[0].id;
    while trunk.nodes < MOST_NODES {
        let place = entry_place(id, 4 * trunk.nodes);
        match child(&entry_in(trunk.word)) {
            Some(row) => {
                if !is_shared(ways, trunk.nodes, place) {
                    return trunk;
                }
                trunk.word = words.word(row, place, steps);
                trunk.nodes += 1;
                *reads += 1;
            }
            None => return trunk,
        }
    }
    trunk
}

/// Sets all ways out from where they part.
fn set_out(ways: &mut [Way], trunk: Trunk)
    ensures { ways.new ≡ map (led trunk) ways.old }
{
    for way in ways.iter_mut() {
        way.word = trunk.word;
        way.nodes = u64::from(trunk.nodes);
    }
}

/// Goes down from where they part to the words of the leaves with all the points of a group.
fn go_down<W: Words, L: Ledger>(
    words: &mut W,
    ways: &mut [Way],
    from: u32,
    reads: &mut u64,
    steps: &mut Steps<L>,
)
    requires go { (root : ℕ) × (settings : Settings) × (state : State) × (s : Stands settings (W.image words.old) root state) × All (Goes settings state s.layout from) ways.old }
    requires from { from ≤ 7 }
    requires room { reads.old + 8 * length ways.old < 2 ^ 61 }
    ensures same { words.new ≡ words.old }
    ensures points { map (λ way. way.point) ways.new ≡ map (λ way. way.point) ways.old }
    ensures down { (root : ℕ) (settings : Settings) (state : State) (s : Stands settings (W.image words.old) root state) → All (Goes settings state s.layout from) ways.old
        → All (IsDown settings state s.layout) ways.new }
    ensures count { reads.new + sum_by (λ way. way.nodes) ways.old ≡ reads.old + sum_by (λ way. way.nodes) ways.new }
    ensures ticks { steps.new + reads.old ≡ steps.old + reads.new }
    ensures bound { reads.new ≤ reads.old + 7 * length ways.old }
{
    for depth in from..MOST_NODES {
        let more = level(words, ways, depth, steps);
        *reads += more;
        if more == 0 {
            return;
        }
    }
}

/// Goes down from the root node to the words of the leaves with all the points of a group.
fn go_all<W: Words, L: Ledger>(
    words: &mut W,
    root: u32,
    ways: &mut [Way],
    reads: &mut u64,
    steps: &mut Steps<L>,
)
    requires stands { (settings : Settings) × (state : State) × Stands settings (W.image words.old) root state }
    requires tops { All (λ way. IsTop way.id way.point) ways.old }
    requires room { reads.old + 16 * length ways.old < 2 ^ 60 }
    ensures same { words.new ≡ words.old }
    ensures points { map (λ way. way.point) ways.new ≡ map (λ way. way.point) ways.old }
    ensures down { (settings : Settings) (state : State) (s : Stands settings (W.image words.old) root state) → All (IsDown settings state s.layout) ways.new }
    ensures count { reads.new ≤ reads.old + sum_by (λ way. way.nodes) ways.new }
    ensures ticks { steps.new + reads.old ≡ steps.old + reads.new }
    ensures bound { reads.new ≤ reads.old + 14 * length ways.old }
{
    let trunk = go_together(words, root, ways, reads, steps);
    set_out(ways, trunk);
    go_down(words, ways, trunk.nodes, reads, steps);
}

/// Goes down from the root node to the words of the leaves that hold the points of a group.
pub(crate) fn descend_all<W: Words, L: Ledger>(
    words: &mut W,
    root: u32,
    points: &[Point],
    ways: &mut Vec<Way>,
    reads: &mut u64,
    steps: &mut Steps<L>,
) -> Result<(), NoMemory>
    requires stands { (settings : Settings) × (state : State) × Stands settings (W.image words.old) root state }
    requires room { reads.old + 16 * length points.now < 2 ^ 60 }
    ensures same { words.new ≡ words.old }
    ensures points { OnOk result (map (λ way. way.point) ways.new.items ≡ points.now) }
    ensures down { OnOk result ((settings : Settings) (state : State) (s : Stands settings (W.image words.old) root state) → All (IsDown settings state s.layout) ways.new.items) }
    ensures count { OnOk result (reads.new ≤ reads.old + sum_by (λ way. way.nodes) ways.new.items) }
    ensures err { OnErr result (reads.new ≤ reads.old + length points.now) }
    ensures ticks { steps.new + reads.old ≡ steps.old + reads.new }
    ensures bound { reads.new ≤ reads.old + 14 * length points.now }
{
    begin(points, ways)?;
    go_all(words, root, ways, reads, steps);
    Ok(())
}
