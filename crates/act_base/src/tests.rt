//! A count of three steps.
ghost use Rattle.std.specs.Prelude.{◌≡◌, ℕ, ◌+◌, ◌<◌};

use crate::Steps;
use std::marker::Brand;
use std::sync::ledger::{Blank, Ledger};

fn take_three<L: Ledger>(steps: &mut Steps<L>)
    ensures { steps.new ≡ steps.old + 3 }
{
    steps.tick();
    steps.tick();
    steps.tick();
}

fn count_three<L: Ledger>(blank: Blank)
    requires name { blank.name ≡ L.name }
    requires parts { (blank.parts ≡ L.parts) × (0 < L.parts) }
{
    let mut steps = Steps::<L>::new(blank);
    take_three(&mut steps);
}

#[test]
fn counts() {
    count_three::<Brand>(Blank::new(1));
}
