//! Two readers, lent, given back, and lent again.
ghost use Rattle.std.specs.Prelude.{◌≡◌, ℕ, ◌+◌, ◌<◌, length, Contains};
ghost use Rattle.act_rows.specs.Images.{word_of};

use crate::law::{bounds_never_fall, steps_keep_the_rule};
use crate::{Fact, Guest, NoPin, look_at_all, new};
use act_base::Steps;
use std::marker::Brand;
use std::sync::ledger::{Blank, Ledger};
use std::test::Fail;

// The first word of the root is the version.
struct Numbers;

impl Fact for Numbers {
    ghost fact = { λ h root x. word_of x root 0 ≡ length h };
}

// The version that is held, its root, and the root's first word.
fn read<L: Ledger>(guest: Guest<Numbers>, blank: Blank) -> (Guest<Numbers>, u64, u32, u64)
    requires name { blank.name ≡ L.name }
    requires parts { (blank.parts ≡ L.parts) × (0 < L.parts) }
    ensures table { result.0.table ≡ guest.table }
    ensures word { result.3 ≡ result.1 }
{
    let mut steps = Steps::<L>::new(blank);
    let mut pin = guest.pin();
    let version = pin.version();
    let root = pin.root();
    let word = pin.word(root, 0, &mut steps);
    (pin.leave(), version, root, word)
}

#[test]
fn lends_each_reader_once(rt: HostRuntime) -> Result<(), Fail> {
    // The laws do nothing when they run.
    steps_keep_the_rule::<Numbers>();
    bounds_never_fall::<Numbers>();
    let mut master = new::<Numbers>(rt.alloc(), 4, 2)?;
    let Ok(first) = master.lend() else {
        return Err(Fail::from("no pin"));
    };
    let Ok(second) = master.lend() else {
        return Err(Fail::from("no second pin"));
    };
    assert_eq!(rt; (first.reader(), second.reader()), (0, 1));
    assert_eq!(rt; master.lend().err(), Some(NoPin));
    let (first, version, root, word) = read::<Brand>(first, Blank::new(1));
    assert_eq!(rt; (version, root, word), (0, 1, 0));
    let Some(seen) = master.look(0) else {
        return Err(Fail::from("a lent reader that isn't seen"));
    };
    assert_eq!(rt; (seen.word, seen.bound), (0, 0));
    let lowest = look_at_all(&mut master);
    assert_eq!(rt; lowest.bound, 0);
    let mut first = first;
    first.learn(master.note());
    master.give_back(first);
    assert!(rt; master.look(0).is_none());
    let Ok(again) = master.lend() else {
        return Err(Fail::from("no pin after it was given back"));
    };
    assert_eq!(rt; (again.reader(), again.seen()), (0, master.version()));
    master.give_back(again);
    master.give_back(second);
    Ok(())
}
