//! The words of list rows.

ghost use Rattle.std.specs.Prelude.{◌≡◌, ◌<◌, ◌+◌, ◌^◌, OnOk, length, nat_lt};
ghost use Rattle.act_super.specs.Packs.{list_words};
ghost use Rattle.act_image.specs.Plans.{behind_last, filled, no_fill, put_list, start_at, words_in};

use act_entry::Ref;
use act_grid::NoMemory;
use std::alloc::{AllocError, Global};
use std::marker::Model;

/// The words of a row.
const ROW_WORDS: u64 = 256;

/// More list rows of a node than this are answered as want of memory.
const MOST_ROWS: u32 = 1 << 30;

/// A word of a list: how many references it has, or one or two of them. The row of a reference is where its chain
/// begins among the rows of all chains.
#[derive(Clone, Copy, Debug, PartialEq, Eq)]
pub(crate) enum ListWord {
    Count(u32),
    Pair(Ref, Option<Ref>),
}

/// How far the lists of a node fill its list rows: the rows so far, and the words that are taken in the last one.
#[derive(Clone, Copy, Debug, PartialEq, Eq)]
pub(crate) struct Fill {
    pub rows: u32,
    pub at: u32,
}

/// Where a list begins: in which list row of its node, and at which place.
#[derive(Clone, Copy, Debug, PartialEq, Eq)]
pub(crate) struct ListStart {
    pub row: u32,
    pub place: u8,
}

impl Fill {
    /// No list row yet.
    pub fn empty() -> Fill
        ensures { result ≡ no_fill }
    {
        Fill { rows: 0, at: 256 }
    }

    /// Whether the list of so many references starts a row.
    fn starts_row(&self, references: u32) -> bool
        ensures { result ≡ nat_lt 256 (self.now.at + list_words references) }
    {
        ROW_WORDS < u64::from(self.at) + (1 + (u64::from(references) + 1) / 2)
    }

    /// Where the next list begins.
    pub fn start(&self, references: u32) -> ListStart
        ensures row { result.row ≡ (start_at self.now references).row }
        ensures place { result.place ≡ (start_at self.now references).place }
    {
        if self.starts_row(references) {
            ListStart {
                row: self.rows,
                place: 0,
            }
        } else {
            ListStart {
                row: self.rows.saturating_sub(1),
                place: self.at as u8,
            }
        }
    }

    /// Puts the list of a leaf with so many references, where it has one.
    pub fn put(&mut self, references: u32) -> Result<(), NoMemory>
        requires { references < 2 ^ 30 }
        ensures { OnOk result (self.new ≡ filled self.old references) }
    {
        if references < 3 {
            return Ok(());
        }
        let words = 1 + (references + 1) / 2;
        if self.starts_row(references) {
            if self.rows >= MOST_ROWS {
                return Err(NoMemory);
            }
            self.rows += 1;
            self.at = words;
        } else {
            self.at += words;
        }
        Ok(())
    }
}

/// The words of the lists in a row, up to the last one. Contracts see the list.
#[derive(Debug, Drop)]
pub(crate) struct ListRow {
    words: Vec<ListWord>,
}

impl Model for ListRow {
    ghost use Rattle.std.specs.Prelude.{List};
    ghost use Rattle.act_image.specs.declared.lists.ListWord.{ListWord};

    ghost Value = { List ListWord };

    ghost view = { λ r. r.words.items };
}

impl ListRow {
    ghost use Rattle.std.specs.Prelude.{◌≡◌, ◌++◌, [], ◌∷◌, OnOk, length, slice_index_or};
    ghost use Rattle.act_image.specs.Plans.{words_in};

    /// A row without lists.
    pub fn new(alloc: Global) -> ListRow
        ensures { result ≡ [] }
    {
        ListRow {
            words: Vec::new(alloc),
        }
    }

    /// Puts a word behind the others.
    pub fn push(&mut self, word: ListWord) -> Result<(), AllocError>
        ensures { OnOk result (self.new ≡ self.old ++ word ∷ []) }
    {
        self.words.push(word)?;
        Ok(())
    }

    /// Puts a list of so many references behind the others.
    pub fn push_list(&mut self, count: u32, refs: &[Ref]) -> Result<(), AllocError>
        requires { count ≡ length refs.now }
        ensures { OnOk result (self.new ≡ self.old ++ words_in refs.now) }
    {
        self.push(ListWord::Count(count))?;
        let mut i = 0;
        while i < refs.len() {
            let second = if i + 1 < refs.len() {
                Some(refs[i + 1])
            } else {
                None
            };
            self.push(ListWord::Pair(refs[i], second))?;
            i += 2;
        }
        Ok(())
    }

    /// A word, and 0 behind the last one.
    pub fn word(&self, place: u8) -> ListWord
        ensures { result ≡ slice_index_or self.now place (ListWord.Count 0) }
    {
        if (place as usize) < self.words.len() {
            self.words[place as usize]
        } else {
            ListWord::Count(0)
        }
    }
}

/// Puts the list of a leaf with these references to the list rows of its node, where it has one. `fill` tells how far they
/// are filled before.
pub(crate) fn put_list(
    alloc: Global,
    rows: &mut Vec<ListRow>,
    fill: Fill,
    count: u32,
    refs: &[Ref],
) -> Result<(), NoMemory>
    requires { count ≡ length refs.now }
    ensures { OnOk result (rows.new.items ≡ put_list fill count rows.old.items refs.now) }
{
    if count < 3 {
        return Ok(());
    }
    if fill.starts_row(count) {
        let mut row = ListRow::new(alloc);
        row.push_list(count, refs)?;
        rows.push(row)?;
    } else {
        put_behind(rows, count, refs)?;
    }
    Ok(())
}

// Puts a list behind the last one.
fn put_behind(rows: &mut Vec<ListRow>, count: u32, refs: &[Ref]) -> Result<(), AllocError>
    requires { count ≡ length refs.now }
    ensures { OnOk result (rows.new.items ≡ behind_last rows.old.items (words_in refs.now)) }
{
    let count_rows = rows.len();
    if count_rows == 0 {
        return Ok(());
    }
    let last = count_rows - 1;
    rows[last].push_list(count, refs)?;
    Ok(())
}
