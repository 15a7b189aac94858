//! The writer: it lends readers, looks at their pins, stores rows and publishes them.
ghost use Rattle.std.specs.Prelude.{◌≡◌, ℕ, ◌+◌, ◌*◌, ◌<◌, ◌≤◌, ◌^◌, [], ◌∷◌, ◌++◌, length, replicate, Contains, IfOk, IfErr, IfSome, IfNone, Option, Some, None};
ghost use lib.ListN.{get_elem?};
ghost use mathlib.Core.Option.{some};
ghost use Rattle.act_rows.specs.History.{Begins};
ghost use Rattle.act_rows.specs.Images.{InRange, place_in};
ghost use Rattle.act_rows.specs.Bounds.{lowest, bound_at, raised};
ghost use Rattle.act_rows.specs.Versions.{newest};
ghost use Rattle.act_rows.specs.First.{first_image, first_desk};
ghost use Rattle.act_rows.specs.Updates.{lent, newcomer, returned, looked, stored, published};
ghost use Rattle.act_rows.specs.Safe.{Kept};
ghost use Rattle.act_rows.specs.Asked.{MayStore, MayPublish};
ghost use Rattle.act_rows.specs.Tokens.{Mastered, desk_of, IsWide, Spares};
ghost use Rattle.act_rows.specs.declared.views.View.TheVariants.{Writes};
ghost use Rattle.act_rows.specs.declared.board.Sizes.{Sizes};

use crate::board::{Place, ROOTS, word_of_row};
use crate::fact::{Added, Fact};
use crate::guest::Guest;
use crate::link::Link;
use crate::look::Seen;
use crate::note::Note;
use crate::plays::{Check, Lend, Look, Publish, StoreRow, TakeBack, Tell};
use act_base::Steps;
use std::marker::{Model, PhantomData};
use std::sync::ledger::Ledger;

/// All pins are lent.
#[derive(Clone, Copy, Debug, PartialEq, Eq)]
pub struct NoPin;

/// The writer of a table. There is one for each table.
#[derive(Drop)]
pub struct Master<F: Fact> {
    pub(crate) link: Link<F>,
    pub(crate) seat: Place,
    pub(crate) rows: u32,
    pub(crate) pins: u32,
    pub(crate) version: u64,
    // The bound of each reader that is lent.
    pub(crate) bounds: Vec<Option<u64>>,
    // A share of the table for each reader that is not lent.
    pub(crate) spares: Vec<Option<Link<F>>>,
}

impl<F: Fact> Model for Master<F> {
    ghost Value = { Mastered };

    ghost view = { λ m. record { table = m.seat.table_id; desk = desk_of m.seat.me.0 } };

    ghost invariant = { λ m. record {
      link : m.link ≡ m.seat.table_id;
      seated : m.seat.me ≡ (Writes (desk_of m.seat.me.0), []);
      wide : IsWide m.seat.table_id m.pins m.rows;
      numbers : (m.rows ≡ (desk_of m.seat.me.0).rows) × (m.pins ≡ (desk_of m.seat.me.0).pins) × (m.version ≡ newest (desk_of m.seat.me.0));
      bounds : m.bounds.items ≡ (desk_of m.seat.me.0).bounds;
      spares : Spares m.spares.items m.bounds.items m.seat.table_id;
      kept : Kept F.fact (desk_of m.seat.me.0);
    } };
}

// The bound after a pin word was found.
fn raise(newest: u64, word: u64, bound: u64) -> u64
    ensures { result ≡ raised newest word bound }
{
    if word == 0 {
        newest
    } else {
        bound.max(word - 1)
    }
}

// The lowest place that has nothing, or the length.
fn lowest_free(bounds: &[Option<u64>]) -> usize
    ensures { result ≡ lowest bounds.now }
{
    for at in 0..bounds.len() {
        let None = bounds[at] else {
            continue;
        };
        return at;
    }
    bounds.len()
}

impl<F: Fact> Master<F> {
    /// Lends the lowest reader that is not lent. It has seen the whole history, and its bound is the
    /// current version. It takes no memory.
    pub fn lend(&mut self) -> Result<Guest<F>, NoPin>
        ensures ok { IfOk result (λ g. (lowest self.old.desk.bounds < self.old.desk.pins) × (self.new.desk ≡ lent self.old.desk) × (g.ticket ≡ newcomer self.old.desk) × (g.table ≡ self.old.table)) }
        ensures err { IfErr result (λ _. (lowest self.old.desk.bounds ≡ self.old.desk.pins) × (self.new ≡ self.old)) }
        ensures table { self.new.table ≡ self.old.table }
    {
        let number = lowest_free(self.bounds.as_slice());
        if number == self.bounds.len() {
            return Err(NoPin);
        }
        let Some(link) = self.spares[number].take() else {
            unreachable!()
        };
        let seat = self.link.shared().split_seat::<Lend>(&mut self.seat);
        self.bounds[number] = Some(self.version);
        Ok(Guest {
            link,
            seat,
            number: number as u32,
            pins: self.pins,
            seen: self.version,
        })
    }

    /// Takes a guest back, which was lent by this master: its reader may be lent again.
    pub fn give_back(&mut self, guest: Guest<F>)
        requires { guest.table ≡ self.old.table }
        ensures same { (self.new.table ≡ self.old.table) × (self.new.desk ≡ returned self.old.desk guest.ticket) }
        ensures begins { Begins guest.ticket.seen self.old.desk.history }
    {
        let Guest {
            link,
            seat,
            number,
            pins: _,
            seen: _,
        } = guest;
        self.link
            .shared()
            .join_seat::<TakeBack>(&mut self.seat, seat);
        self.link.shared().load::<Check>(&mut self.seat, 0);
        self.bounds[number as usize] = None;
        self.spares[number as usize] = Some(link);
    }

    /// Loads the pin word of reader j, and raises its bound by it: to the current version at 0, and
    /// at any other word to the version that it stands for, if that is more. None comes exactly where
    /// the reader isn't lent.
    pub fn look(&mut self, j: u32) -> Option<Seen>
        requires { j < self.old.desk.pins }
        ensures some { IfSome result (λ s. (c : ℕ) × (get_elem? self.old.desk.bounds j ≡ some (Some c)) × (s.bound ≡ raised (newest self.old.desk) s.word c) × (self.new.desk ≡ looked self.old.desk j s.word)) }
        ensures none { IfNone result ((get_elem? self.old.desk.bounds j ≡ some None) × (self.new ≡ self.old)) }
        ensures table { self.new.table ≡ self.old.table }
    {
        let bound = self.bounds[j as usize]?;
        let word = self
            .link
            .shared()
            .load::<Look>(&mut self.seat, 1 + j as usize);
        let after = raise(self.version, word, bound);
        self.bounds[j as usize] = Some(after);
        Some(Seen { word, bound: after })
    }

    /// How many readers there are, lent or not.
    pub fn pins(&self) -> u32
        ensures { result ≡ self.now.desk.pins }
    {
        self.pins
    }

    /// The current version, which is the number of entries of the history.
    pub fn version(&self) -> u64
        ensures version { result ≡ newest self.now.desk }
        ensures kept { Kept F.fact self.now.desk }
    {
        self.version
    }

    /// Stores a word of a row that no version has from the least bound to the current one.
    pub fn store<L: Ledger>(&mut self, row: u32, place: u8, word: u64, steps: &mut Steps<L>)
        requires { MayStore self.old.desk row }
        ensures same { (self.new.table ≡ self.old.table) × (self.new.desk ≡ stored self.old.desk row place word) }
        ensures ticks { steps.new ≡ steps.old + 1 }
    {
        steps.tick();
        let at = word_of_row(self.pins, row, place);
        self.link
            .shared()
            .store::<StoreRow>(&mut self.seat, at, word);
    }

    /// Makes the rows of E the current version, with this root and the entry of E. Each row is one of
    /// the current version, or one of which all 256 words were stored since the last publication.
    pub fn publish<E: Added>(&mut self, root: u32)
        requires { MayPublish F.fact self.old.desk E.entry root E.rows E.firsts }
        ensures { (self.new.table ≡ self.old.table) × (self.new.desk ≡ published self.old.desk E.entry root E.rows E.firsts) }
    {
        let version = self.version + 1;
        self.link
            .shared()
            .store::<Publish<E>>(&mut self.seat, 0, version * ROOTS + u64::from(root));
        self.version = version;
    }

    /// A token of the history so far.
    pub fn note(&mut self) -> Note<F>
        ensures { (self.new ≡ self.old) × (result.table ≡ self.old.table) × (result.history ≡ self.old.desk.history) }
    {
        let seat = self.link.shared().split_seat::<Tell>(&mut self.seat);
        Note {
            seat,
            entries: self.version,
            fact: PhantomData,
        }
    }
}
