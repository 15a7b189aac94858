//! Worked rows: rings that are refused, and points inside, outside and on borders.

use crate::{MOST_VERTICES, PushFault, Shape, inside};
use act_grid::Point;
use std::alloc::Global;
use std::test::Fail;

fn at(x: i32, y: i32) -> Point {
    Point { x, y }
}

// The ring of a square, against the clock from its lower left corner.
fn corners(low: i32, high: i32) -> [Point; 4] {
    [at(low, low), at(high, low), at(high, high), at(low, high)]
}

fn square(alloc: Global, low: i32, high: i32) -> Result<Shape, PushFault> {
    let mut shape = Shape::new(alloc);
    shape.push_ring(&corners(low, high))?;
    Ok(shape)
}

#[test]
fn rings_are_refused(rt: HostRuntime) -> Result<(), Fail> {
    let mut shape = square(rt.alloc(), 0, 10)?;
    let triangle = [at(0, 0), at(10, 0), at(0, 10)];
    let longest = vec![in rt.alloc(); at(1, 1); MOST_VERTICES - 4]?;
    let too_long = vec![in rt.alloc(); at(1, 1); MOST_VERTICES - 3]?;
    assert_eq!(rt;
        shape.push_ring(&[at(0, 0), at(10, 0)]),
        Err(PushFault::Few)
    );
    assert_eq!(rt; shape.push_ring(&too_long), Err(PushFault::Many));
    assert_eq!(rt; shape.push_ring(&longest), Ok(()));
    assert_eq!(rt; shape.push_ring(&triangle), Err(PushFault::Many));
    assert_eq!(rt; (shape.rings(), shape.vertices()), (2, 262_144));
    Ok(())
}

#[test]
fn copies_have_the_same_rings(rt: HostRuntime) -> Result<(), Fail> {
    let shape = square(rt.alloc(), 0, 10)?;
    let copy = shape.try_clone()?;
    assert_eq!(rt; (copy.rings(), copy.vertices()), (1, 4));
    assert!(rt; copy.ring(0) == corners(0, 10).as_slice());
    Ok(())
}

#[test]
fn borders_belong_to_one_side(rt: HostRuntime) -> Result<(), Fail> {
    let shape = square(rt.alloc(), 0, 10)?;
    for (x, y, want) in [
        (5, 5, true),
        (9, 9, true),
        (-1, 5, false),
        (0, 0, true),
        (0, 5, true),
        (5, 0, true),
        (10, 5, false),
        (5, 10, false),
        (10, 0, false),
        (0, 10, false),
        (10, 10, false),
        (i32::MAX, 5, false),
        (i32::MIN, 5, false),
    ] {
        assert_eq!(rt; inside(&shape, at(x, y)), want, "at {x} {y}");
    }
    Ok(())
}

#[test]
fn holes_are_outside(rt: HostRuntime) -> Result<(), Fail> {
    let mut shape = square(rt.alloc(), 0, 10)?;
    shape.push_ring(&[at(2, 2), at(2, 8), at(8, 8), at(8, 2)])?;
    for (x, y, want) in [
        (1, 5, true),
        (2, 2, false),
        (5, 5, false),
        (7, 7, false),
        (8, 5, true),
        (5, 8, true),
        (8, 8, true),
        (10, 10, false),
    ] {
        assert_eq!(rt; inside(&shape, at(x, y)), want, "at {x} {y}");
    }
    Ok(())
}

#[test]
fn whole_range_is_exact(rt: HostRuntime) -> Result<(), Fail> {
    let (low, high) = (i32::MIN, i32::MAX);
    let mut shape = Shape::new(rt.alloc());
    shape.push_ring(&[at(low, low), at(high, high), at(low, high)])?;
    for (x, y, want) in [
        (low, low, false),
        (low, low + 1, true),
        (0, 0, false),
        (-1, 0, true),
        (0, 1, true),
        (high - 2, high - 1, true),
        (high - 1, high - 1, false),
        (low, high, false),
    ] {
        assert_eq!(rt; inside(&shape, at(x, y)), want, "at {x} {y}");
    }
    Ok(())
}

#[test]
fn no_rings_hold_no_point(rt: HostRuntime) {
    let shape = Shape::new(rt.alloc());
    assert_eq!(rt; (shape.rings(), shape.vertices()), (0, 0));
    assert!(rt; !inside(&shape, at(0, 0)));
}
