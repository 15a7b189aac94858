//! A claimer of pieces.
ghost use Rattle.std.specs.Prelude.{◌≡◌, ◌<◌, ◌≤◌, ℕ, true, false, [], ◌∷◌, ◌++◌, IfSome, IfNone};
ghost use Rattle.act_base.specs.Counting.{times};
ghost use Rattle.act_tally.specs.Tokens.{Claiming, drawer_of};
ghost use Rattle.act_tally.specs.declared.views.View.TheVariants.{Draws};

use crate::link::Link;
use crate::plays::Draw;
use crate::rule::Place;
use std::marker::Model;

/// One worker's right to draw pieces.
#[derive(Drop)]
pub struct Claimer {
    pub(crate) link: Link,
    pub(crate) seat: Place,
    pub(crate) pieces: u32,
}

impl Model for Claimer {
    ghost Value = { Claiming };

    ghost view = { λ c. record { table = c.seat.table_id; drawer = drawer_of c.seat.me.0 } };

    ghost invariant = { λ c. record {
      link : c.link ≡ c.seat.table_id;
      seated : c.seat.me ≡ (Draws (drawer_of c.seat.me.0), []);
      wide : c.seat.table_id.words ≡ 1;
      pieces : c.pieces ≡ (drawer_of c.seat.me.0).pieces;
    } };
}

impl Claimer {
    /// Draws the next piece, by one step on the shared word. None comes exactly where the number that
    /// was fetched is past the last piece; the claimer has then met the end and draws no more.
    pub fn draw(&mut self) -> Option<u32>
        requires { self.old.drawer.ended ≡ false }
        ensures some { IfSome result (λ piece. (piece < self.old.drawer.pieces) × (times self.old.drawer.fetched piece ≡ 0) × (self.new ≡ record self.old { drawer = record self.old.drawer { fetched = self.old.drawer.fetched ++ piece ∷ [] } })) }
        ensures none { IfNone result ((number : ℕ) × (self.old.drawer.pieces ≤ number) × (self.new ≡ record self.old { drawer = record self.old.drawer { fetched = self.old.drawer.fetched ++ number ∷ []; ended = true } })) }
    {
        let number = self.link.shared().fetch_add::<Draw>(&mut self.seat, 0, 1);
        if number < u64::from(self.pieces) {
            Some(number as u32)
        } else {
            None
        }
    }
}
