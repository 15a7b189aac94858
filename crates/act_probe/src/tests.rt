//! Points of an image without zones, and keys that are dealt.

ghost use Rattle.std.specs.Prelude.{◌≡◌, ℕ, ◌<◌, ◌∷◌, []};

use crate::deal::deal_keys;
use crate::{Buffers, Keys, Words, probe, probe_batch};
use act_base::Steps;
use act_grid::{Layers, NoMemory, Point};
use std::alloc::Global;
use std::marker::Brand;
use std::sync::ledger::{Blank, Ledger};
use std::test::Fail;

/// The words of one row of zeros.
#[derive(Drop)]
struct Zeros;

impl Words for Zeros {
    ghost image = { λ _. record { rows = 1 ∷ []; firsts = []; word = λ row place. 0 } };

    fn word<L: Ledger>(&mut self, _row: u32, _place: u8, steps: &mut Steps<L>) -> u64 {
        steps.tick();
        0
    }
}

/// How many zones are found at a point, and how many words are read.
fn found<L: Ledger>(blank: Blank, p: Point) -> (u32, u64)
    requires name { blank.name ≡ L.name }
    requires parts { (blank.parts ≡ L.parts) × (0 < L.parts) }
{
    let mut steps = Steps::<L>::new(blank);
    let mut keys = Keys::new();
    let reads = probe(&mut Zeros, 1, p, Layers::all(), &mut keys, &mut steps);
    (keys.len(), reads)
}

#[test]
fn no_zones(rt: HostRuntime) -> Result<(), Fail> {
    let (keys, reads) = found::<Brand>(Blank::new(1), Point { x: 0, y: 0 });
    assert_eq!(rt; keys, 0);
    assert_eq!(rt; reads, 1);
    Ok(())
}

/// How many pairs eighty points have, of which each group has one elsewhere, and how many words are read.
fn joined<L: Ledger>(
    alloc: Global,
    blank: Blank,
    elsewhere: Point,
) -> Result<(usize, u64), NoMemory>
    requires name { blank.name ≡ L.name }
    requires parts { (blank.parts ≡ L.parts) × (0 < L.parts) }
{
    let mut steps = Steps::<L>::new(blank);
    let mut buffers = Buffers::new(alloc);
    let mut points = [Point { x: 3, y: -4 }; 80];
    points[7] = elsewhere;
    points[77] = elsewhere;
    let reads = probe_batch(
        &mut Zeros,
        1,
        &points,
        Layers::all(),
        &mut buffers,
        &mut steps,
    )?;
    Ok((buffers.hits().len(), reads))
}

#[test]
fn no_pairs(rt: HostRuntime) -> Result<(), Fail> {
    let (pairs, reads) = joined::<Brand>(rt.alloc(), Blank::new(1), Point { x: -3, y: 4 })?;
    assert_eq!(rt; pairs, 0);
    assert_eq!(rt; reads, 80);
    Ok(())
}

#[test]
fn no_pairs_together(rt: HostRuntime) -> Result<(), Fail> {
    let (pairs, reads) = joined::<Brand>(rt.alloc(), Blank::new(1), Point { x: 4, y: -3 })?;
    assert_eq!(rt; pairs, 0);
    // Each of the two groups reads the word of the root node once.
    assert_eq!(rt; reads, 2);
    Ok(())
}

/// Whether a thousand keys are put in their order by dealing, and the first and the last of them after it.
fn dealt(alloc: Global) -> Result<(bool, Option<u64>, Option<u64>), NoMemory> {
    let mut keys = Vec::new(alloc);
    for place in 0..1000u64 {
        keys.push((place * 7919 % 1000) * 0x1_0000_0000 + place)?;
    }
    let mut dealt = Vec::new(alloc);
    let done = deal_keys(&mut keys, &mut dealt)?;
    Ok((done, keys.first().copied(), keys.last().copied()))
}

#[test]
fn deals_keys(rt: HostRuntime) -> Result<(), Fail> {
    let (done, first, last) = dealt(rt.alloc())?;
    assert!(rt; done);
    assert_eq!(rt; first, Some(0));
    // 321 * 7919 is 2541999.
    assert_eq!(rt; last, Some(999 * 0x1_0000_0000 + 321));
    Ok(())
}
