//! The table that the writer and the readers share.
//!
//! Word 0 is the version word: the current version times 2^24, plus its root row.
//! Word 1 + j is the pin word of reader j: 0, or one more than a version that it wants to hold.
//! Row r, r being from 1 to twice the rows of an image, has the 256 words from word 1 + pins + (r - 1) * 256 on, and its word k
//! is the one at (k + 8 * r) % 256 of them. Words at one place of many rows, such as the first ones of chains, would else
//! contend for the same few lines of the processor's caches, which tell lines apart by the low bits of their addresses.
//!
//! The writer alone stores word 0 and the words of rows, and reader j alone stores word 1 + j.
ghost use Rattle.std.specs.Prelude.{◌≡◌, ℕ, ◌+◌, ◌*◌, ◌%◌, ◌<◌, ◌≤◌};
ghost use Rattle.act_rows.specs.Images.{place_in};
ghost use Rattle.act_rows.specs.First.{starting};
ghost use Rattle.act_rows.specs.Safe.{Safe};

use crate::fact::Fact;
use crate::views::View;
use atomic_table::{Seat, Table, TableRule};
use std::marker::PhantomData;

/// The greatest number of rows of an image.
pub const MOST_ROWS: u32 = 262_144;

/// The greatest number of readers that are lent at once.
pub const MOST_PINS: u32 = 64;

/// The words of a row.
pub const WORDS_OF_A_ROW: usize = 256;

/// What the version is multiplied by in the version word. A root is below it.
pub const ROOTS: u64 = 16_777_216;

/// How many rows an image has at most, and how many readers there are.
#[derive(Clone, Copy)]
pub struct Sizes {
    pub rows: u32,
    pub pins: u32,
}

/// The rule of the table, for the caller's fact of versions.
pub struct Rows<F> {
    fact: PhantomData<F>,
}

impl<F: Fact> TableRule<(), View, Sizes> for Rows<F> {
    ghost holds = { Safe F.fact };

    ghost first = { starting };
}

/// The table. It has no slots.
pub type Board<F, A> = Table<(), View, Sizes, Rows<F>, A>;

/// A seat at the table, with what it knows.
pub type Place = Seat<(), View>;

// How far the words of a row are turned.
#[inline]
fn turn(row: u32) -> u8
    ensures { result ≡ 8 * row % 256 }
{
    (row % 32) as u8 * 8
}

// Where the word of a row at a place stands in a table for so many readers.
pub(crate) fn word_of_row(pins: u32, row: u32, place: u8) -> usize
    requires { (0 < row) × (row ≤ 524288) × (pins ≤ 64) }
    ensures { result ≡ 1 + pins + place_in row place }
{
    1 + pins as usize
        + (row as usize - 1) * WORDS_OF_A_ROW
        + usize::from(place.wrapping_add(turn(row)))
}
