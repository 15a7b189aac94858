//! Worked answers: batches over two layers, and a point beside a zone that gets other shapes.

ghost use Rattle.std.specs.Prelude.{◌≡◌, ◌<◌};

use crate::tests::{add, opened, version_of};
use crate::{Answer, At, Pair, Reader, Refused, Writer};
use act_base::Steps;
use act_geom::Shape;
use act_grid::{Layers, NoMemory, Point};
use act_io::NoGate;
use act_probe::Keys;
use std::alloc::Global;
use std::marker::Brand;
use std::sync::ledger::{Blank, Ledger};
use std::test::Fail;

/// The key 7 in layer 1.
const SECOND: u32 = 16_777_223;

/// The same batch for all layers and for layer 1, where the square from (0, 0) to (10, 10) stands in the layers 0 and 1.
fn batches<L: Ledger>(
    alloc: Global,
    writer: &mut Writer,
    reader: &mut Reader,
    blank: Blank,
) -> Result<(Answer, Answer), NoMemory>
    requires name { blank.name ≡ L.name }
    requires parts { (blank.parts ≡ L.parts) × (0 < L.parts) }
{
    let mut steps = Steps::<L>::new(blank);
    let _ = add(alloc, writer, 7, &mut steps);
    let _ = add(alloc, writer, SECOND, &mut steps);
    let points = [
        Point { x: 0, y: 0 },
        Point { x: 10, y: 0 },
        Point { x: 9, y: 9 },
    ];
    let all = reader.join(alloc, &points, Layers::all(), &NoGate, &mut steps)?;
    let layer = Layers::none().with(1);
    let one = reader.join(alloc, &points, layer, &NoGate, &mut steps)?;
    Ok((all, one))
}

#[test]
fn batches_name_points_and_keys(rt: HostRuntime) -> Result<(), Fail> {
    let (mut writer, mut reader) = opened(rt.alloc(), 64)?;
    let (all, one) = batches::<Brand>(rt.alloc(), &mut writer, &mut reader, Blank::new(1))?;
    let pair = |point, key| Pair { point, key };
    let both = [pair(0, 7), pair(0, SECOND), pair(2, 7), pair(2, SECOND)];
    assert!(rt; all.pairs().as_slice() == &both[..]);
    assert!(rt; one.pairs().as_slice() == &[both[1], both[3]][..]);
    assert_eq!(rt; (all.version(), one.version()), (2, 2));
    assert!(rt; all.reads() <= 63 && one.reads() <= 45);
    Ok(())
}

/// The shape with these four corners.
fn four(alloc: Global, corners: [(i32, i32); 4]) -> Result<Shape, NoMemory> {
    let mut shape = Shape::new(alloc);
    let [a, b, c, d] = corners;
    let at = |p: (i32, i32)| Point { x: p.0, y: p.1 };
    match shape.push_ring(&[at(a), at(b), at(c), at(d)]) {
        Ok(()) => Ok(shape),
        Err(_) => Err(NoMemory),
    }
}

/// Gives zone 7 the shape with these four corners.
fn replace<L: Ledger>(
    alloc: Global,
    writer: &mut Writer,
    corners: [(i32, i32); 4],
    steps: &mut Steps<L>,
) -> Result<u64, Refused> {
    match four(alloc, corners) {
        Ok(shape) => version_of(writer.replace(7, shape, steps)),
        Err(_) => Err(Refused::NoMemory),
    }
}

/// The zone gets its own ring from another corner on, and then a wider one. What is found at (15, 5) after each.
fn replaced<L: Ledger>(
    alloc: Global,
    writer: &mut Writer,
    reader: &mut Reader,
    blank: Blank,
) -> ([Result<u64, Refused>; 3], [At; 2])
    requires name { blank.name ≡ L.name }
    requires parts { (blank.parts ≡ L.parts) × (0 < L.parts) }
{
    let mut steps = Steps::<L>::new(blank);
    let mut keys = Keys::new();
    let p = Point { x: 15, y: 5 };
    let first = add(alloc, writer, 7, &mut steps);
    let turned = [(10, 0), (10, 10), (0, 10), (0, 0)];
    let second = replace(alloc, writer, turned, &mut steps);
    let before = reader.at(p, Layers::all(), &mut keys, &mut steps);
    let wide = [(0, 0), (20, 0), (20, 10), (0, 10)];
    let third = replace(alloc, writer, wide, &mut steps);
    let after = reader.at(p, Layers::all(), &mut keys, &mut steps);
    ([first, second, third], [before, after])
}

#[test]
fn a_replaced_zone_has_its_new_shape(rt: HostRuntime) -> Result<(), Fail> {
    let (mut writer, mut reader) = opened(rt.alloc(), 64)?;
    let (updates, [before, after]) = replaced::<Brand>(
        rt.alloc(),
        &mut writer,
        &mut reader,
        Blank::new(1),
    );
    assert_eq!(rt; updates, [Ok(1), Ok(2), Ok(3)]);
    assert_eq!(rt; (before.version, before.count), (2, 0));
    assert_eq!(rt; (after.version, after.count), (3, 1));
    Ok(())
}
