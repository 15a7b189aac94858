//! The way down to the leaf that holds a point.

ghost use Rattle.std.specs.Prelude.{◌≡◌, ◌+◌, ◌*◌, ◌<◌, ◌≤◌, ◌^◌, ◌/◌, ◌%◌, ◌-◌, Some};
ghost use Rattle.act_grid.specs.declared.Settings.{Settings};
ghost use Rattle.act_entry.specs.declared.entry.Entry.{Entry};
ghost use Rattle.act_entry.specs.Entries.{entry_of};
ghost use Rattle.act_super.specs.declared.entry.State.{State};
ghost use Rattle.act_super.specs.Stands.{Stands};
ghost use Rattle.act_probe.specs.Ways.{IsReached, IsTop, child_in};

use crate::words::Words;
use act_base::Steps;
use act_entry::{Entry, decode};
use act_grid::{Cell, Point};
use std::sync::ledger::Ledger;

/// The nodes on the longest way down.
pub(crate) const MOST_NODES: u32 = 7;

/// The entry of the leaf that holds a point, and how many nodes were read on the way to it.
#[derive(Clone, Copy, Debug, PartialEq, Eq)]
pub(crate) struct Reached {
    pub entry: Entry,
    pub nodes: u64,
}

/// The id of the cell of level 30 that holds the point.
#[inline]
pub(crate) fn top(p: Point) -> u64
    ensures { IsTop result p }
{
    Cell::leaf(p).id()
}

/// The place of the entry that holds the cell of level 30 in the node of a level above it.
#[inline]
pub(crate) fn entry_place(id: u64, level: u32) -> u8
    requires { level ≤ 26 }
    ensures { result ≡ id / 2 ^ (53 - 2 * level) % 256 }
{
    ((id >> (53 - 2 * level)) % 256) as u8
}

/// The entry of a word of a node.
#[inline]
pub(crate) fn entry_in(word: u64) -> Entry
    ensures { (e : Entry) → entry_of word ≡ Some e → result ≡ e }
{
    match decode(word) {
        Some(entry) => entry,
        None => Entry::Empty,
    }
}

/// The row of the node that an entry names, where it names one.
#[inline]
pub(crate) fn child(entry: &Entry) -> Option<u32>
    ensures { result ≡ child_in entry.now }
{
    match *entry {
        Entry::Child(row) => Some(row),
        _ => None,
    }
}

/// Goes down from the root node to the entry of the leaf that holds the point.
pub(crate) fn descend<W: Words, L: Ledger>(
    words: &mut W,
    root: u32,
    p: Point,
    steps: &mut Steps<L>,
) -> Reached
    requires { (settings : Settings) × (state : State) × Stands settings (W.image words.old) root state }
    ensures same { words.new ≡ words.old }
    ensures reached { (settings : Settings) (state : State) (s : Stands settings (W.image words.old) root state) → IsReached settings state s.layout p result.entry result.nodes }
    ensures ticks { steps.new ≡ steps.old + result.nodes }
    ensures bound { result.nodes ≤ 7 }
{
    let id = top(p);
    let mut row = root;
    for depth in 0..MOST_NODES {
        let word = words.word(row, entry_place(id, 4 * depth), steps);
        let nodes = u64::from(depth) + 1;
        let Some(entry) = decode(word) else {
            // Each word of a node is that of an entry.
            return Reached {
                entry: Entry::Empty,
                nodes,
            };
        };
        match child(&entry) {
            Some(below) => row = below,
            None => return Reached { entry, nodes },
        }
    }
    // No way down has more nodes.
    Reached {
        entry: Entry::Empty,
        nodes: u64::from(MOST_NODES),
    }
}
