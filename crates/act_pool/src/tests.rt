//! A pool of 16 rows, from the first row taken to the last.

use crate::Pool;
use std::test::Fail;

#[test]
fn takes_and_frees(rt: HostRuntime) -> Result<(), Fail> {
    let mut pool = Pool::new(rt.alloc(), 16)?;
    assert_eq!(rt; pool.free(), 15);
    let mut all = [0u32; 16];
    let Err(short) = pool.take(&mut all) else {
        return Err(Fail::from("16 of 15 rows"));
    };
    assert_eq!(rt; short.free, 15);

    // Row 1 is in use from the start.
    pool.retire(1, 3);
    pool.reclaim(2);
    assert_eq!(rt; pool.free(), 15);
    pool.reclaim(3);
    assert_eq!(rt; pool.free(), 16);

    assert!(rt; pool.take(&mut all).is_ok());
    all.sort_unstable();
    assert_eq!(rt;
        all,
        [1, 2, 3, 4, 5, 6, 7, 8, 9, 10, 11, 12, 13, 14, 15, 16]
    );
    assert_eq!(rt; pool.free(), 0);
    Ok(())
}
