//! What each step on the table tells: draw, the one step of a claimer, and those of the claims.
ghost use Rattle.act_tally.specs.Steps.{draws, checks, hands_left, hands_right, takes};
ghost use Rattle.act_tally.specs.declared.views.View.TheVariants.{Spent};

use crate::views::View;
use atomic_table::{Join, Play, Split};

/// A claimer adds one to the word, and fetches what it was.
pub struct Draw;

impl Play<(), View> for Draw {
    ghost then = { draws };
}

/// The load after a claimer is taken back.
pub struct Check;

impl Play<(), View> for Check {
    ghost then = { checks };
}

/// A claimer is handed out.
pub struct Hand;

impl Split<View> for Hand {
    ghost left = { hands_left };

    ghost right = { hands_right };
}

/// A claimer is taken back.
pub struct TakeBack;

impl Join<View> for TakeBack {
    ghost both = { takes };

    ghost spent = { Spent };
}
