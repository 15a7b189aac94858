//! Worked updates and answers: what a reader finds between updates, why updates are refused, and a reader that holds a
//! version while zones come and go.

ghost use Rattle.std.specs.Prelude.{◌≡◌, ◌<◌, IfOk};

use crate::law::histories_tell_entries;
use crate::{At, Done, Reader, Refused, Turned, Writer};
use act_base::Steps;
use act_geom::Shape;
use act_grid::{Layers, NoMemory, Point, Settings};
use act_probe::Keys;
use act_rows::NoPin;
use std::alloc::Global;
use std::marker::Brand;
use std::sync::ledger::{Blank, Ledger};
use std::test::Fail;

/// The square with these corners.
fn square(alloc: Global, low: (i32, i32), high: (i32, i32)) -> Result<Shape, NoMemory> {
    let mut shape = Shape::new(alloc);
    let at = |x, y| Point { x, y };
    let ring = [
        at(low.0, low.1),
        at(high.0, low.1),
        at(high.0, high.1),
        at(low.0, high.1),
    ];
    match shape.push_ring(&ring) {
        Ok(()) => Ok(shape),
        Err(_) => Err(NoMemory),
    }
}

/// The square from (0, 0) to (10, 10).
pub(crate) fn small(alloc: Global) -> Result<Shape, NoMemory> {
    square(alloc, (0, 0), (10, 10))
}

pub(crate) fn settings(rows: u32) -> Result<Settings, Fail> {
    Ok(Settings::new(0, rows, 64, 4).ok_or("limits")?)
}

/// The version after an add or a replace, or why it was refused.
pub(crate) fn version_of(added: Result<Done, Turned>) -> Result<u64, Refused> {
    match added {
        Ok(done) => Ok(done.version),
        Err(turned) => Err(turned.why),
    }
}

pub(crate) fn version_after(dropped: Result<Done, Refused>) -> Result<u64, Refused> {
    match dropped {
        Ok(done) => Ok(done.version),
        Err(why) => Err(why),
    }
}

/// A writer at version 0 for two readers, and the first of them.
pub(crate) fn opened(alloc: Global, rows: u32) -> Result<(Writer, Reader), Fail>
    ensures { IfOk result (λ r. r.1.table ≡ r.0.table) }
{
    let mut writer = Writer::new(alloc, settings(rows)?, 2)?;
    let Ok(reader) = writer.lend() else {
        return Err(Fail::from("no pin"));
    };
    Ok((writer, reader))
}

/// Adds the square from (0, 0) to (10, 10).
pub(crate) fn add<L: Ledger>(
    alloc: Global,
    writer: &mut Writer,
    key: u32,
    steps: &mut Steps<L>,
) -> Result<u64, Refused>
    ensures { writer.new.table ≡ writer.old.table }
{
    match small(alloc) {
        Ok(shape) => version_of(writer.add(key, shape, steps)),
        Err(_) => Err(Refused::NoMemory),
    }
}

/// Gives the zone that square, or one far from it.
fn replace<L: Ledger>(
    alloc: Global,
    writer: &mut Writer,
    key: u32,
    far: bool,
    steps: &mut Steps<L>,
) -> Result<u64, Refused> {
    match shape_of(alloc, far) {
        Ok(shape) => version_of(writer.replace(key, shape, steps)),
        Err(_) => Err(Refused::NoMemory),
    }
}

fn shape_of(alloc: Global, far: bool) -> Result<Shape, NoMemory> {
    if far {
        square(alloc, (-1008, -1008), (-998, -998))
    } else {
        small(alloc)
    }
}

fn add_far<L: Ledger>(
    alloc: Global,
    writer: &mut Writer,
    key: u32,
    steps: &mut Steps<L>,
) -> Result<u64, Refused> {
    match shape_of(alloc, true) {
        Ok(shape) => version_of(writer.add(key, shape, steps)),
        Err(_) => Err(Refused::NoMemory),
    }
}

/// Two adds with a drop between them, while an idle reader stays lent, and what it finds at (9, 9).
fn with_idle_reader<L: Ledger>(
    alloc: Global,
    writer: &mut Writer,
    reader: &mut Reader,
    blank: Blank,
) -> ([Result<u64, Refused>; 3], [At; 3])
    requires name { blank.name ≡ L.name }
    requires parts { (blank.parts ≡ L.parts) × (0 < L.parts) }
    requires table { reader.old.table ≡ writer.old.table }
{
    let mut steps = Steps::<L>::new(blank);
    let mut keys = Keys::new();
    let p = Point { x: 9, y: 9 };
    let nothing = reader.at(p, Layers::all(), &mut keys, &mut steps);
    let first = add(alloc, writer, 7, &mut steps);
    let one = reader.at(p, Layers::all(), &mut keys, &mut steps);
    let second = version_after(writer.drop_zone(7, &mut steps));
    let third = add(alloc, writer, 7, &mut steps);
    reader.learn(writer.note());
    let again = reader.at(p, Layers::all(), &mut keys, &mut steps);
    ([first, second, third], [nothing, one, again])
}

#[test]
fn an_idle_reader_holds_no_version(rt: HostRuntime) -> Result<(), Fail> {
    histories_tell_entries();
    let (mut writer, mut reader) = opened(rt.alloc(), 8)?;
    let (updates, found) = with_idle_reader::<Brand>(
        rt.alloc(),
        &mut writer,
        &mut reader,
        Blank::new(1),
    );
    assert_eq!(rt; updates, [Ok(1), Ok(2), Ok(3)]);
    assert_eq!(rt;
        (found[0].version, found[0].count, found[0].reads),
        (0, 0, 1)
    );
    assert_eq!(rt; (found[1].version, found[1].count), (1, 1));
    assert_eq!(rt; (found[2].version, found[2].count), (3, 1));
    assert!(rt; found[2].reads <= 14);
    Ok(())
}

/// Updates, most of them refused where there are eight rows.
fn refusals<L: Ledger>(
    alloc: Global,
    writer: &mut Writer,
    blank: Blank,
) -> [Result<u64, Refused>; 9]
    requires name { blank.name ≡ L.name }
    requires parts { (blank.parts ≡ L.parts) × (0 < L.parts) }
{
    let mut steps = Steps::<L>::new(blank);
    [
        add(alloc, writer, 7, &mut steps),
        add(alloc, writer, 7, &mut steps),
        version_after(writer.drop_zone(9, &mut steps)),
        replace(alloc, writer, 9, false, &mut steps),
        replace(alloc, writer, 7, false, &mut steps),
        add_far(alloc, writer, 2, &mut steps),
        replace(alloc, writer, 7, true, &mut steps),
        version_after(writer.drop_zone(7, &mut steps)),
        add_far(alloc, writer, 2, &mut steps),
    ]
}

#[test]
fn updates_are_refused_for_their_causes(rt: HostRuntime) -> Result<(), Fail> {
    let mut writer = Writer::new(rt.alloc(), settings(8)?, 1)?;
    let told = refusals::<Brand>(rt.alloc(), &mut writer, Blank::new(1));
    let wanted = [
        Ok(1),
        Err(Refused::Duplicate),
        Err(Refused::Unknown),
        Err(Refused::Unknown),
        Err(Refused::Same),
        Err(Refused::Rows { need: 15, limit: 8 }),
        Ok(2),
        Ok(3),
        Ok(4),
    ];
    assert_eq!(rt; told, wanted);
    assert_eq!(rt; writer.updates(), 4);
    Ok(())
}

#[test]
fn both_zones_stand_in_sixteen_rows(rt: HostRuntime) -> Result<(), Fail> {
    let mut writer = Writer::new(rt.alloc(), settings(16)?, 1)?;
    let told = refusals::<Brand>(rt.alloc(), &mut writer, Blank::new(1));
    let wanted = [
        Ok(1),
        Err(Refused::Duplicate),
        Err(Refused::Unknown),
        Err(Refused::Unknown),
        Err(Refused::Same),
        Ok(2),
        Ok(3),
        Ok(4),
        Err(Refused::Duplicate),
    ];
    assert_eq!(rt; told, wanted);
    Ok(())
}

/// What is found at (5, 5) for all layers, layer 1 and no layers, where zones of layers 0 and 1 hold the point.
fn layered<L: Ledger>(
    alloc: Global,
    writer: &mut Writer,
    reader: &mut Reader,
    blank: Blank,
) -> ([Result<u64, Refused>; 2], [At; 3])
    requires name { blank.name ≡ L.name }
    requires parts { (blank.parts ≡ L.parts) × (0 < L.parts) }
{
    let mut steps = Steps::<L>::new(blank);
    let mut keys = Keys::new();
    let p = Point { x: 5, y: 5 };
    let one = add(alloc, writer, 7, &mut steps);
    let two = add(alloc, writer, 16_777_223, &mut steps);
    let all = reader.at(p, Layers::all(), &mut keys, &mut steps);
    let first = reader.at(p, Layers::none().with(1), &mut keys, &mut steps);
    let none = reader.at(p, Layers::none(), &mut keys, &mut steps);
    ([one, two], [all, first, none])
}

#[test]
fn layers_that_are_not_asked_for_are_not_tested(rt: HostRuntime) -> Result<(), Fail> {
    let (mut writer, mut reader) = opened(rt.alloc(), 64)?;
    let (updates, [all, first, none]) = layered::<Brand>(
        rt.alloc(),
        &mut writer,
        &mut reader,
        Blank::new(1),
    );
    assert_eq!(rt; updates, [Ok(1), Ok(2)]);
    assert_eq!(rt; (all.count, first.count, none.count), (2, 1, 0));
    assert!(rt; all.reads <= 21 && first.reads <= 15 && none.reads <= 9);
    Ok(())
}

/// Three trainings with five points at (300000, 300000), where one zone with few cells stands, and what is found there
/// before them and after the first two.
fn trained<L: Ledger>(
    writer: &mut Writer,
    reader: &mut Reader,
    zone: Shape,
    blank: Blank,
) -> ([Result<Done, Refused>; 3], [(At, Option<u32>); 3])
    requires name { blank.name ≡ L.name }
    requires parts { (blank.parts ≡ L.parts) × (0 < L.parts) }
{
    let mut steps = Steps::<L>::new(blank);
    let p = Point {
        x: 300_000,
        y: 300_000,
    };
    let sample = [p, p, p, p, p];
    let _ = writer.add(7, zone, &mut steps);
    let before = first_key(reader, p, &mut steps);
    let first = writer.train(&sample, 5, &mut steps);
    let between = first_key(reader, p, &mut steps);
    let second = writer.train(&sample, 5, &mut steps);
    let after = first_key(reader, p, &mut steps);
    let third = writer.train(&sample, 5, &mut steps);
    ([first, second, third], [before, between, after])
}

/// What is found at a point, and the first of the keys.
fn first_key<L: Ledger>(reader: &mut Reader, p: Point, steps: &mut Steps<L>) -> (At, Option<u32>) {
    let mut keys = Keys::new();
    let found = reader.at(p, Layers::all(), &mut keys, steps);
    if keys.len() > 0 {
        (found, Some(keys.get(0)))
    } else {
        (found, None)
    }
}

/// A training after one update.
fn training(version: u64, split: u32) -> Result<Done, Refused> {
    Ok(Done {
        version,
        updates: 1,
        split,
    })
}

#[test]
fn trainings_keep_the_keys(rt: HostRuntime) -> Result<(), Fail> {
    let few = Settings::new(0, 64, 1, 4).ok_or("limits")?;
    let mut writer = Writer::new(rt.alloc(), few, 1)?;
    let Ok(mut reader) = writer.lend() else {
        return Err(Fail::from("no pin"));
    };
    let zone = square(rt.alloc(), (0, 0), (1_000_000, 1_000_000))?;
    let (updates, [before, between, after]) = trained::<Brand>(
        &mut writer,
        &mut reader,
        zone,
        Blank::new(1),
    );
    assert_eq!(rt; updates, [training(2, 1), training(3, 1), training(3, 0)]);
    assert_eq!(rt;
        (before.0.version, before.0.count, before.1),
        (1, 1, Some(7))
    );
    assert_eq!(rt;
        (between.0.version, between.0.count, between.1),
        (2, 1, Some(7))
    );
    assert_eq!(rt; (after.0.version, after.0.count, after.1), (3, 1, Some(7)));
    assert!(rt; before.0.reads <= 10 && between.0.reads <= 11 && after.0.reads <= 5);
    Ok(())
}

#[test]
fn lends_each_reader_once(rt: HostRuntime) -> Result<(), Fail> {
    let mut writer = Writer::new(rt.alloc(), settings(8)?, 2)?;
    let Ok(first) = writer.lend() else {
        return Err(Fail::from("no pin"));
    };
    let Ok(second) = writer.lend() else {
        return Err(Fail::from("no second pin"));
    };
    assert_eq!(rt; (first.number(), second.number()), (0, 1));
    assert_eq!(rt; writer.lend().err(), Some(NoPin));
    writer.give_back(first);
    let Ok(again) = writer.lend() else {
        return Err(Fail::from("no pin after one was given back"));
    };
    assert_eq!(rt; (again.number(), again.seen()), (0, writer.version()));
    assert_eq!(rt; writer.updates(), 0);
    Ok(())
}
