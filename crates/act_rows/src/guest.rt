//! A reader that holds no version.
ghost use Rattle.std.specs.Prelude.{◌≡◌, ◌<◌, [], ◌∷◌, ◌++◌, length, Contains};
ghost use Rattle.act_rows.specs.History.{Begins, longer};
ghost use Rattle.act_rows.specs.Tokens.{Guested, ticket_of, IsWide};
ghost use Rattle.act_rows.specs.declared.views.Stage.TheVariants.{Idle};
ghost use Rattle.act_rows.specs.declared.views.View.TheVariants.{Reads};

use crate::board::{Place, ROOTS};
use crate::fact::Fact;
use crate::link::Link;
use crate::note::Note;
use crate::pin::Pin;
use crate::plays::{Decide, Heed, Hint, Learn, PinUp};
use std::marker::Model;

/// A reader that is lent and holds no version. One that is dropped stays lent.
#[derive(Drop)]
pub struct Guest<F: Fact> {
    pub(crate) link: Link<F>,
    pub(crate) seat: Place,
    pub(crate) number: u32,
    pub(crate) pins: u32,
    pub(crate) seen: u64,
}

impl<F: Fact> Model for Guest<F> {
    ghost Value = { Guested };

    ghost view = { λ g. record { table = g.seat.table_id; ticket = ticket_of g.seat.me.0 } };

    ghost invariant = { λ g. record {
      link : g.link ≡ g.seat.table_id;
      seated : g.seat.me ≡ (Reads (ticket_of g.seat.me.0), []);
      idle : (ticket_of g.seat.me.0).stage ≡ Idle;
      wide : IsWide g.seat.table_id g.pins (ticket_of g.seat.me.0).rows;
      numbers : (g.number ≡ (ticket_of g.seat.me.0).number) × (g.number < g.pins) × (g.pins ≡ (ticket_of g.seat.me.0).pins) × (g.seen ≡ length (ticket_of g.seat.me.0).seen);
    } };
}

impl<F: Fact> Guest<F> {
    /// The reader's number, from 0.
    pub fn reader(&self) -> u32
        ensures { result ≡ self.now.ticket.number }
    {
        self.number
    }

    /// How many entries of the history the reader has seen.
    pub fn seen(&self) -> u64
        ensures { result ≡ length self.now.ticket.seen }
    {
        self.seen
    }

    /// Takes in a note of this table: what was seen becomes the longer of the two histories, of which
    /// one begins the other.
    pub fn learn(&mut self, note: Note<F>)
        requires { note.table ≡ self.old.table }
        ensures same { self.new ≡ record self.old { ticket = record self.old.ticket { seen = longer self.old.ticket.seen note.history; told = [] } } }
        ensures one { Begins self.old.ticket.seen self.new.ticket.seen × Begins note.history self.new.ticket.seen }
    {
        let Note {
            seat,
            entries,
            fact: _,
        } = note;
        self.link.shared().join_seat::<Learn>(&mut self.seat, seat);
        self.link.shared().load::<Heed>(&mut self.seat, 0);
        if self.seen < entries {
            self.seen = entries;
        }
    }

    /// Holds a version, one that is current during the call and no older than what was seen. It takes
    /// three steps on the table, and never waits.
    pub fn pin(self) -> Pin<F>
        ensures same { (result.table ≡ self.table) × (result.ticket.number ≡ self.ticket.number) × (result.ticket.seen ≡ self.ticket.seen) × (result.ticket.rows ≡ self.ticket.rows) }
        ensures mine { result.ticket.mine ≡ self.ticket.mine ++ length result.history ∷ [] }
        ensures later { Begins self.ticket.seen result.history }
        ensures fits { F.fact result.history result.version.root result.version.image }
        ensures rooted { Contains result.version.image.rows result.version.root }
    {
        let Guest {
            link,
            mut seat,
            number,
            pins,
            seen: _,
        } = self;
        let hint = link.shared().load::<Hint>(&mut seat, 0) / ROOTS;
        link.shared()
            .store::<PinUp>(&mut seat, 1 + number as usize, hint + 1);
        let word = link.shared().load::<Decide<F>>(&mut seat, 0);
        Pin {
            link,
            seat,
            number,
            pins,
            version: word / ROOTS,
            root: (word % ROOTS) as u32,
        }
    }
}
