//! A reader that holds a version.
ghost use Rattle.std.specs.Prelude.{◌≡◌, ℕ, ◌+◌, ◌<◌, [], length, Contains};
ghost use Rattle.act_rows.specs.Images.{InRange, word_of};
ghost use Rattle.act_rows.specs.Updates.{left};
ghost use Rattle.act_rows.specs.Tokens.{Pinning, ticket_of, history_of, version_of, IsWide};
ghost use Rattle.act_rows.specs.declared.views.Stage.TheVariants.{Holding};
ghost use Rattle.act_rows.specs.declared.views.View.TheVariants.{Reads};

use crate::board::{Place, word_of_row};
use crate::fact::Fact;
use crate::guest::Guest;
use crate::link::Link;
use crate::plays::{Leave, Read};
use act_base::Steps;
use std::marker::Model;
use std::sync::ledger::Ledger;

/// A reader that holds a version: until it leaves, no row of that version is stored to. It must be
/// spent by `leave`.
pub struct Pin<F: Fact> {
    pub(crate) link: Link<F>,
    pub(crate) seat: Place,
    pub(crate) number: u32,
    pub(crate) pins: u32,
    pub(crate) version: u64,
    pub(crate) root: u32,
}

impl<F: Fact> Model for Pin<F> {
    ghost Value = { Pinning };

    ghost view = { λ p. record { table = p.seat.table_id; ticket = ticket_of p.seat.me.0; history = history_of (ticket_of p.seat.me.0).stage; version = version_of (ticket_of p.seat.me.0).stage } };

    ghost invariant = { λ p. record {
      link : p.link ≡ p.seat.table_id;
      seated : p.seat.me ≡ (Reads (ticket_of p.seat.me.0), []);
      holds : (ticket_of p.seat.me.0).stage ≡ Holding (history_of (ticket_of p.seat.me.0).stage) (version_of (ticket_of p.seat.me.0).stage);
      wide : IsWide p.seat.table_id p.pins (ticket_of p.seat.me.0).rows;
      numbers : (p.number ≡ (ticket_of p.seat.me.0).number) × (p.number < p.pins) × (p.pins ≡ (ticket_of p.seat.me.0).pins) × (p.version ≡ length (history_of (ticket_of p.seat.me.0).stage)) × (p.root ≡ (version_of (ticket_of p.seat.me.0).stage).root);
      ranged : (row : ℕ) → Contains (version_of (ticket_of p.seat.me.0).stage).image.rows row → InRange (ticket_of p.seat.me.0).rows row;
    } };
}

impl<F: Fact> Pin<F> {
    /// The version that is held.
    pub fn version(&self) -> u64
        ensures { result ≡ length self.now.history }
    {
        self.version
    }

    /// The root row of the version.
    pub fn root(&self) -> u32
        ensures { result ≡ self.now.version.root }
    {
        self.root
    }

    /// The word at a place of a row of the version's image, by one load.
    pub fn word<L: Ledger>(&mut self, row: u32, place: u8, steps: &mut Steps<L>) -> u64
        requires { Contains self.old.version.image.rows row }
        ensures word { result ≡ word_of self.old.version.image row place }
        ensures same { self.new ≡ self.old }
        ensures ticks { steps.new ≡ steps.old + 1 }
    {
        steps.tick();
        let at = word_of_row(self.pins, row, place);
        self.link.shared().load::<Read>(&mut self.seat, at)
    }

    /// Lets the version go, by one store. The guest has seen that version.
    pub fn leave(self) -> Guest<F>
        ensures { (result.table ≡ self.table) × (result.ticket ≡ left self.ticket self.history) }
    {
        let Pin {
            link,
            mut seat,
            number,
            pins,
            version,
            root: _,
        } = self;
        link.shared()
            .store::<Leave>(&mut seat, 1 + number as usize, 0);
        Guest {
            link,
            seat,
            number,
            pins,
            seen: version,
        }
    }
}
