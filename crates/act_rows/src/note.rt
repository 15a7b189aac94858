//! A token of the history so far.
ghost use Rattle.std.specs.Prelude.{◌≡◌, [], length};
ghost use Rattle.act_rows.specs.Tokens.{Noted, told_of};
ghost use Rattle.act_rows.specs.declared.views.View.TheVariants.{Tells};

use crate::board::Place;
use crate::fact::Fact;
use std::marker::{Model, PhantomData};

/// A history that the writer had, by which a reader learns of it. It is a seat alone, and takes no
/// share of the table's memory.
#[derive(Drop)]
pub struct Note<F: Fact> {
    pub(crate) seat: Place,
    pub(crate) entries: u64,
    pub(crate) fact: PhantomData<F>,
}

impl<F: Fact> Model for Note<F> {
    ghost Value = { Noted };

    ghost view = { λ n. record { table = n.seat.table_id; history = told_of n.seat.me.0 } };

    ghost invariant = { λ n. (n.seat.me ≡ (Tells (told_of n.seat.me.0), [])) × (n.entries ≡ length (told_of n.seat.me.0)) };
}
