//! Three pieces and one claimer.

use crate::Claims;
use std::test::Fail;

#[test]
fn draws_each_piece_once(rt: HostRuntime) -> Result<(), Fail> {
    let mut claims = Claims::new(rt.alloc(), 3, 1)?;
    let Some(mut claimer) = claims.hand() else {
        return Err(Fail::from("no claimer"));
    };
    assert!(rt; claims.hand().is_none());
    let Some(first) = claimer.draw() else {
        return Err(Fail::from("no first piece"));
    };
    let Some(second) = claimer.draw() else {
        return Err(Fail::from("no second piece"));
    };
    let Some(third) = claimer.draw() else {
        return Err(Fail::from("no third piece"));
    };
    assert_eq!(rt; (first, second, third), (0, 1, 2));
    assert!(rt; claimer.draw().is_none());
    claims.take(claimer);
    Ok(())
}
