//! Words of rows.

ghost use Rattle.std.specs.Prelude.{◌≡◌, ◌+◌, ◌<◌};
ghost use Rattle.act_base.specs.Counting.{times};
ghost use Rattle.act_base.specs.Sight.{Sight};

use act_base::Steps;
use std::sync::ledger::Ledger;

/// What gives the words of an image.
pub trait Words {
    /// The image that the words are of.
    ghost image: { Self → Sight };

    /// The word of a row of the image at a place. It is one step, and leaves all as it was.
    fn word<L: Ledger>(&mut self, row: u32, place: u8, steps: &mut Steps<L>) -> u64
        requires { 0 < times (image self.old).rows row }
        ensures word { result ≡ (image self.old).word row place }
        ensures same { self.new ≡ self.old }
        ensures ticks { steps.new ≡ steps.old + 1 };
}
