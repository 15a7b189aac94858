//! A reader that holds version 0 while zones come and go: the gate changes the zones within the reader's call.

ghost use Rattle.std.specs.Prelude.{◌≡◌, ◌<◌, IfOk, length};

use crate::tests::{add, opened, small, version_after};
use crate::{Change, Changes, Reader, Refused, Writer};
use act_base::Steps;
use act_grid::{Layers, NoMemory, Point};
use act_io::{Gate, Place};
use act_probe::Keys;
use std::alloc::Global;
use std::marker::Brand;
use std::sync::Mutex;
use std::sync::ledger::{Blank, Ledger};
use std::test::Fail;

/// What is done while a reader holds version 0.
trait Work {
    fn run(&mut self);
}

/// The gate that does the work at Bound.
#[derive(Drop)]
struct Busy<W> {
    work: Mutex<W>,
}

impl<W: Work + Send> Gate for Busy<W> {
    fn at(&self, _who: u32, place: Place, _number: u64) {
        if place == Place::Bound {
            if let Some(mut work) = self.work.try_lock() {
                work.run();
            }
        }
    }
}

/// Asks at (9, 9), and does the work at Bound: the version of the answer, and how many pairs it has.
fn ask<W: Work + Send, M: Ledger>(
    alloc: Global,
    reader: &mut Reader,
    busy: &Busy<W>,
    blank: Blank,
) -> Option<(u64, usize)>
    requires blank { (blank.name ≡ M.name) × (blank.parts ≡ M.parts) × (0 < M.parts) }
{
    let mut steps = Steps::<M>::new(blank);
    let points = [Point { x: 9, y: 9 }];
    match reader.join(alloc, &points, Layers::all(), busy, &mut steps) {
        Ok(answer) => Some((answer.version(), answer.pairs().as_slice().len())),
        Err(_) => None,
    }
}

/// Three updates at eight rows.
#[derive(Drop)]
struct Three<L: Ledger> {
    alloc: Global,
    writer: Writer,
    steps: Steps<L>,
    told: [Result<u64, Refused>; 3],
}

impl<L: Ledger> Work for Three<L> {
    fn run(&mut self) {
        let first = add(self.alloc, &mut self.writer, 7, &mut self.steps);
        let second = version_after(self.writer.drop_zone(7, &mut self.steps));
        let third = add(self.alloc, &mut self.writer, 7, &mut self.steps);
        self.told = [first, second, third];
    }
}

/// What the three updates answer under a pin, what the reader finds, and what an add answers after it.
fn three_held<L: Ledger + Send, M: Ledger>(
    alloc: Global,
    writer: Writer,
    reader: &mut Reader,
    writes: Blank,
    reads: Blank,
) -> (
    [Result<u64, Refused>; 3],
    Option<(u64, usize)>,
    Result<u64, Refused>,
)
    requires writes { (writes.name ≡ L.name) × (writes.parts ≡ L.parts) × (0 < L.parts) }
    requires reads { (reads.name ≡ M.name) × (reads.parts ≡ M.parts) × (0 < M.parts) }
{
    let busy = Busy {
        work: Mutex::new(Three {
            alloc,
            writer,
            steps: Steps::<L>::new(writes),
            told: [Err(Refused::NoMemory); 3],
        }),
    };
    let found = ask::<Three<L>, M>(alloc, reader, &busy, reads);
    let mut work = busy.work.into_inner();
    let again = add(alloc, &mut work.writer, 7, &mut work.steps);
    (work.told, found, again)
}

#[test]
fn a_held_version_keeps_its_rows(rt: HostRuntime) -> Result<(), Fail> {
    let (writer, mut reader) = opened(rt.alloc(), 8)?;
    let (told, found, again) = three_held::<Brand, Brand>(
        rt.alloc(),
        writer,
        &mut reader,
        Blank::new(1),
        Blank::new(1),
    );
    let held = Refused::Held {
        reader: 0,
        version: 0,
        word: 1,
    };
    assert_eq!(rt; told, [Ok(1), Ok(2), Err(held)]);
    assert_eq!(rt; found, Some((0, 0)));
    assert_eq!(rt; again, Ok(3));
    Ok(())
}

/// As many changes, which add the zone and drop it in turn.
fn in_turn(alloc: Global, count: u32, adds_first: bool) -> Result<Changes, NoMemory>
    ensures { IfOk result (λ changes. length changes ≡ count) }
{
    let mut changes = Vec::with_capacity(alloc, count as usize)?;
    for n in 0..count {
        changes.push_reserved(one_of(alloc, (n % 2 == 0) == adds_first)?);
    }
    Ok(Changes::from_vec(changes))
}

fn one_of(alloc: Global, adds: bool) -> Result<Change, NoMemory> {
    if !adds {
        return Ok(Change::DropZone { key: 7 });
    }
    Ok(Change::Add {
        key: 7,
        shape: small(alloc)?,
    })
}

/// Lists of changes, as many as the table has room for, and then adds.
#[derive(Drop)]
struct Lists<L: Ledger> {
    alloc: Global,
    writer: Writer,
    /// A reader that holds no version between its calls.
    other: Option<Reader>,
    steps: Steps<L>,
    /// How many changes of each list were made, and how many are left.
    done: [(u32, usize); 3],
    /// The version of what the other reader finds at (9, 9) after each of the first two lists, and how many zones.
    found: [(u64, u32); 2],
    held: [Result<u64, Refused>; 3],
}

/// How many of these changes were made, and how many are left.
fn apply<L: Ledger>(
    alloc: Global,
    writer: &mut Writer,
    count: u32,
    adds_first: bool,
    steps: &mut Steps<L>,
) -> (u32, usize) {
    match in_turn(alloc, count, adds_first) {
        Ok(changes) => {
            let applied = writer.apply(changes, steps);
            (applied.done, applied.rest.as_slice().len())
        }
        Err(_) => (0, 0),
    }
}

fn found_by<L: Ledger>(other: &mut Option<Reader>, steps: &mut Steps<L>) -> (u64, u32) {
    let Some(reader) = other else {
        return (0, 0);
    };
    let mut keys = Keys::new();
    let found = reader.at(Point { x: 9, y: 9 }, Layers::all(), &mut keys, steps);
    (found.version, found.count)
}

impl<L: Ledger> Work for Lists<L> {
    fn run(&mut self) {
        let first = apply(self.alloc, &mut self.writer, 99, true, &mut self.steps);
        let odd = found_by(&mut self.other, &mut self.steps);
        let second = apply(self.alloc, &mut self.writer, 1, false, &mut self.steps);
        let even = found_by(&mut self.other, &mut self.steps);
        let third = apply(self.alloc, &mut self.writer, 900, true, &mut self.steps);
        self.done = [first, second, third];
        self.found = [odd, even];
        self.held = [
            add(self.alloc, &mut self.writer, 7, &mut self.steps),
            add(self.alloc, &mut self.writer, 7, &mut self.steps),
            add(self.alloc, &mut self.writer, 7, &mut self.steps),
        ];
    }
}

/// What the lists under a pin told, what the reader finds, and what an add answers after it.
fn lists_held<L: Ledger + Send, M: Ledger>(
    alloc: Global,
    writer: Writer,
    reader: &mut Reader,
    writes: Blank,
    reads: Blank,
) -> (
    [(u32, usize); 3],
    [(u64, u32); 2],
    [Result<u64, Refused>; 3],
    Option<(u64, usize)>,
    Result<u64, Refused>,
)
    requires writes { (writes.name ≡ L.name) × (writes.parts ≡ L.parts) × (0 < L.parts) }
    requires reads { (reads.name ≡ M.name) × (reads.parts ≡ M.parts) × (0 < M.parts) }
{
    let mut writer = writer;
    let other = writer.lend().ok();
    let busy = Busy {
        work: Mutex::new(Lists {
            alloc,
            writer,
            other,
            steps: Steps::<L>::new(writes),
            done: [(0, 0); 3],
            found: [(0, 0); 2],
            held: [Err(Refused::NoMemory); 3],
        }),
    };
    let found = ask::<Lists<L>, M>(alloc, reader, &busy, reads);
    let mut work = busy.work.into_inner();
    let again = add(alloc, &mut work.writer, 7, &mut work.steps);
    (work.done, work.found, work.held, found, again)
}

#[test]
fn lists_fill_the_table_under_a_pin(rt: HostRuntime) -> Result<(), Fail> {
    let (writer, mut reader) = opened(rt.alloc(), 2251)?;
    let (done, seen, added, found, again) = lists_held::<Brand, Brand>(
        rt.alloc(),
        writer,
        &mut reader,
        Blank::new(1),
        Blank::new(1),
    );
    let held = Refused::Held {
        reader: 0,
        version: 0,
        word: 1,
    };
    assert_eq!(rt; done, [(99, 0), (1, 0), (900, 0)]);
    assert_eq!(rt; seen, [(99, 1), (100, 0)]);
    assert_eq!(rt; added, [Err(held); 3]);
    assert_eq!(rt; found, Some((0, 0)));
    assert_eq!(rt; again, Ok(1001));
    Ok(())
}
