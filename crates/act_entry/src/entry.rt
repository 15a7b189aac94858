//! The entries of trie nodes.

ghost use Rattle.std.specs.Prelude.{◌≡◌, ◌<◌, ◌^◌};
ghost use Rattle.act_entry.specs.Entries.{IsEntry, child_of, entry_of, entry_word, one_of, table_of, two_of};

use crate::reference::{Ref, number_of, reference};

/// The rows that an entry may name are below this.
const ROWS: u64 = 1 << 30;

/// The numbers of references are below this.
const NUMBERS: u64 = 1 << 31;

/// What an entry of a node says of the cell that it stands for.
#[derive(Clone, Copy, Debug, PartialEq, Eq)]
pub enum Entry {
    /// No zone meets the leaf.
    Empty,
    /// The cell is split, and its node is this row.
    Child(u32),
    /// One zone meets the leaf.
    One(Ref),
    /// Two zones meet the leaf, in ascending order of their keys.
    Two(Ref, Ref),
    /// Three zones or more meet the leaf: their list begins at this place, at most 253, of this row.
    Table { row: u32, place: u8 },
}

/// The word of an entry. The rows in it are from 1 to 2^30-1, and a place is at most 253.
#[inline]
pub fn encode(e: &Entry) -> u64
    requires { IsEntry e.now }
    ensures { result ≡ entry_word e.now }
{
    match *e {
        Entry::Empty => 0,
        Entry::Child(row) => u64::from(row) * 4,
        Entry::One(r) => number_of(r) * 4 + 1,
        Entry::Two(a, b) => number_of(b) * 0x2_0000_0000 + number_of(a) * 4 + 2,
        Entry::Table { row, place } => (u64::from(row) * 256 + u64::from(place)) * 4 + 3,
    }
}

/// The entry of a word. None comes exactly where no entry has the word.
#[inline]
#[tactic(auto, unfolding(crate::specs::Entries::entry_of))]
pub fn decode(word: u64) -> Option<Entry>
    ensures { result ≡ entry_of word }
{
    let value = word / 4;
    match word % 4 {
        0 => child(value),
        1 => one(value),
        2 => two(value % NUMBERS, value / NUMBERS),
        _ => table(value / 256, value % 256),
    }
}

// No zone, or a child node.
#[inline]
fn child(row: u64) -> Option<Entry>
    ensures { result ≡ child_of row }
{
    if row == 0 {
        return Some(Entry::Empty);
    }
    if row >= ROWS {
        return None;
    }
    Some(Entry::Child(row as u32))
}

#[inline]
fn one(number: u64) -> Option<Entry>
    ensures { result ≡ one_of number }
{
    if number >= NUMBERS {
        return None;
    }
    Some(Entry::One(reference(number)?))
}

#[inline]
fn two(first: u64, second: u64) -> Option<Entry>
    requires first { first < 2 ^ 31 }
    requires second { second < 2 ^ 31 }
    ensures { result ≡ two_of first second }
{
    let first = reference(first)?;
    let second = reference(second)?;
    Some(Entry::Two(first, second))
}

#[inline]
fn table(row: u64, place: u64) -> Option<Entry>
    requires { place < 256 }
    ensures { result ≡ table_of row place }
{
    if row == 0 || row >= ROWS || place > 253 {
        return None;
    }
    Some(Entry::Table {
        row: row as u32,
        place: place as u8,
    })
}
