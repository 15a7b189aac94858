//! A writer and a reader in two threads, ended by counts.

ghost use Rattle.std.specs.Prelude.{◌≡◌, ◌<◌};

use crate::tests::{add, opened};
use crate::{Reader, Writer};
use act_base::Steps;
use act_grid::{Layers, Point};
use act_probe::Keys;
use std::alloc::Global;
use std::marker::Brand;
use std::sync::ledger::{Blank, Ledger};
use std::test::Fail;
use std::thread;
use std::thread::Threads;

/// Adds the zone where it doesn't stand, and else drops it, and says whether that was done.
fn turn<L: Ledger>(alloc: Global, writer: &mut Writer, steps: &mut Steps<L>) -> bool {
    if writer.version() % 2 == 1 {
        writer.drop_zone(7, steps).is_ok()
    } else {
        add(alloc, writer, 7, steps).is_ok()
    }
}

/// Changes the zone 400 times, and says how often that was done.
fn write_often<L: Ledger>(alloc: Global, writer: &mut Writer, blank: Blank) -> u64
    requires blank { (blank.name ≡ L.name) × (blank.parts ≡ L.parts) × (0 < L.parts) }
{
    let mut steps = Steps::<L>::new(blank);
    let mut done: u64 = 0;
    for _ in 0..400 {
        if turn(alloc, writer, &mut steps) {
            done = done.wrapping_add(1);
        }
    }
    done
}

/// Asks 400 times, and says whether the zone was found in the odd versions alone, and no version was below the one before.
fn read_often<L: Ledger>(reader: &mut Reader, blank: Blank) -> bool
    requires blank { (blank.name ≡ L.name) × (blank.parts ≡ L.parts) × (0 < L.parts) }
{
    let mut steps = Steps::<L>::new(blank);
    let mut keys = Keys::new();
    let mut good = true;
    let mut before = 0;
    for _ in 0..400 {
        let found = reader.at(Point { x: 9, y: 9 }, Layers::all(), &mut keys, &mut steps);
        good = good && before <= found.version && u64::from(found.count) == found.version % 2;
        before = found.version;
    }
    good
}

fn both<R: Threads + Sync, L: Ledger + Send + Sync, M: Ledger + Send + Sync>(
    rt: &R,
    alloc: Global,
    writer: &mut Writer,
    reader: &mut Reader,
    writes: Blank,
    reads: Blank,
) -> (u64, bool)
    requires writes { (writes.name ≡ L.name) × (writes.parts ≡ L.parts) × (0 < L.parts) }
    requires reads { (reads.name ≡ M.name) × (reads.parts ≡ M.parts) × (0 < M.parts) }
{
    thread::join(
        rt,
        || -> u64
            requires { (writes.name ≡ L.name) × (writes.parts ≡ L.parts) × (0 < L.parts) }
        { write_often::<L>(alloc, writer, writes) },
        || -> bool
            requires { (reads.name ≡ M.name) × (reads.parts ≡ M.parts) × (0 < M.parts) }
        { read_often::<M>(reader, reads) },
    )
}

#[test]
fn answers_beside_updates(rt: HostRuntime) -> Result<(), Fail> {
    let (mut writer, mut reader) = opened(rt.alloc(), 8)?;
    let (done, good) = both::<HostRuntime, Brand, Brand>(
        &rt,
        rt.alloc(),
        &mut writer,
        &mut reader,
        Blank::new(1),
        Blank::new(1),
    );
    assert!(rt; good);
    assert_eq!(rt; writer.version(), done);
    assert!(rt; done > 0);
    Ok(())
}
