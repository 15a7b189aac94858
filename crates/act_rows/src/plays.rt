//! The kinds of step on the table, and what each tells the seat that takes it. There are no others.
ghost use Rattle.act_rows.specs.Steps.{hints, pins, decides, reads, leaves, looks, stores, publishes, checks, heeds, lends_left, lends_right, notes_left, notes_right, takes_back, learns};
ghost use Rattle.act_rows.specs.declared.views.View.TheVariants.{Spent};

use crate::fact::{Added, Fact};
use crate::views::View;
use atomic_table::{Join, Play, Split};
use std::marker::PhantomData;

/// Hint: a reader loads the version word.
pub(crate) struct Hint;

impl Play<(), View> for Hint {
    ghost then = { hints };
}

/// Pin: a reader stores one more than its hint in its pin word.
pub(crate) struct PinUp;

impl Play<(), View> for PinUp {
    ghost then = { pins };
}

/// Decide: a reader loads the version word again, and holds that version.
pub(crate) struct Decide<F> {
    fact: PhantomData<F>,
}

impl<F: Fact> Play<(), View> for Decide<F> {
    ghost then = { decides F.fact };
}

/// Read: a reader loads a word of a row.
pub(crate) struct Read;

impl Play<(), View> for Read {
    ghost then = { reads };
}

/// Leave: a reader stores 0 in its pin word.
pub(crate) struct Leave;

impl Play<(), View> for Leave {
    ghost then = { leaves };
}

/// Look: the writer loads a pin word, and raises the bound of its reader.
pub(crate) struct Look;

impl Play<(), View> for Look {
    ghost then = { looks };
}

/// Store: the writer stores a word of a row.
pub(crate) struct StoreRow;

impl Play<(), View> for StoreRow {
    ghost then = { stores };
}

/// Publish: the writer stores the version word.
pub(crate) struct Publish<E> {
    added: PhantomData<E>,
}

impl<E: Added> Play<(), View> for Publish<E> {
    ghost then = { publishes E.entry E.rows E.firsts };
}

/// The load after a guest is given back, which tells the writer what the guest had seen.
pub(crate) struct Check;

impl Play<(), View> for Check {
    ghost then = { checks };
}

/// The load after a note is learned, which tells the reader of it.
pub(crate) struct Heed;

impl Play<(), View> for Heed {
    ghost then = { heeds };
}

/// A reader's seat is cut off the writer's.
pub(crate) struct Lend;

impl Split<View> for Lend {
    ghost left = { lends_left };

    ghost right = { lends_right };
}

/// A note's seat is cut off the writer's.
pub(crate) struct Tell;

impl Split<View> for Tell {
    ghost left = { notes_left };

    ghost right = { notes_right };
}

/// A reader's seat is joined to the writer's.
pub(crate) struct TakeBack;

impl Join<View> for TakeBack {
    ghost both = { takes_back };

    ghost spent = { Spent };
}

/// A note's seat is joined to a reader's.
pub(crate) struct Learn;

impl Join<View> for Learn {
    ghost both = { learns };

    ghost spent = { Spent };
}
