//! Two threads that publish, pin and read beside each other, ended by counts.

use crate::numbers::Numbers;
use crate::turns::both;
use act_rows::new;
use std::marker::Brand;
use std::sync::ledger::Blank;
use std::test::Fail;

#[test]
fn reads_what_is_published_beside_it(rt: HostRuntime) -> Result<(), Fail> {
    let mut master = new::<Numbers>(rt.alloc(), 4, 2)?;
    let Ok(first) = master.lend() else {
        return Err(Fail::from("no pin"));
    };
    let Ok(second) = master.lend() else {
        return Err(Fail::from("no second pin"));
    };
    let (master, good) = both::<HostRuntime, Brand, Brand>(
        &rt,
        master,
        first,
        second,
        Blank::new(1),
        Blank::new(1),
    );
    assert!(rt; good);
    assert_eq!(rt; master.version(), 7);
    Ok(())
}
