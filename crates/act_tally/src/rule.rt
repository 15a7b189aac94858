//! The table that the claims and the claimers share. Its one word is the next number to be fetched.
ghost use Rattle.act_tally.specs.Fair.{Fair, starting};

use crate::views::View;
use atomic_table::{Seat, Table, TableRule};

/// How many pieces there are, and how many claimers.
#[derive(Clone, Copy)]
pub struct Sizes {
    pub pieces: u32,
    pub claimers: u32,
}

/// The rule of the table.
pub struct Numbers;

impl TableRule<(), View, Sizes> for Numbers {
    ghost holds = { Fair };

    ghost first = { starting };
}

/// The table. It has no slots.
pub type Board<A> = Table<(), View, Sizes, Numbers, A>;

/// A seat at the table, with what it knows.
pub type Place = Seat<(), View>;
