//! Worked rows: touching, classes, and the words of a body.

use crate::{Class, Shape, Walk, body_len, body_word, class_of, inside_body, touches};
use act_grid::{Cell, Point};
use std::alloc::Global;
use std::test::Fail;

fn at(x: i32, y: i32) -> Point {
    Point { x, y }
}

// The square from (0,0) to (10,10).
fn square(alloc: Global) -> Result<Shape, Fail> {
    let mut shape = Shape::new(alloc);
    shape.push_ring(&[at(0, 0), at(10, 0), at(10, 10), at(0, 10)])?;
    Ok(shape)
}

#[test]
fn classes_of_a_square(rt: HostRuntime) -> Result<(), Fail> {
    let shape = square(rt.alloc())?;
    for (x, y, want) in [
        (0, 0, Class::Mixed),
        (4, 4, Class::Inside),
        (8, 8, Class::Mixed),
        (12, 12, Class::Outside),
    ] {
        assert_eq!(rt; class_of(&shape, Cell::leaf(at(x, y))), want, "at {x} {y}");
    }
    Ok(())
}

// A spike goes through a side of the cell, and all its corners are outside.
#[test]
fn a_spike_makes_a_cell_mixed(rt: HostRuntime) -> Result<(), Fail> {
    let mut shape = Shape::new(rt.alloc());
    shape.push_ring(&[at(-5, 1), at(10, 1), at(-5, 2)])?;
    assert_eq!(rt; class_of(&shape, Cell::leaf(at(0, 0))), Class::Mixed);
    Ok(())
}

// The edge passes between the hulls of two cells, and touches that of their parent.
#[test]
fn an_edge_between_two_cells(rt: HostRuntime) {
    let west = Cell::leaf(at(0, 0));
    let east = Cell::leaf(at(4, 0));
    assert!(rt; !touches(west, at(3, 10), at(4, -10)));
    assert!(rt; !touches(east, at(3, 10), at(4, -10)));
    assert!(rt; west.level() > 0);
    assert!(rt; touches(west.parent(), at(3, 10), at(4, -10)));
}

#[test]
fn single_points_touch_where_they_lie(rt: HostRuntime) {
    let cell = Cell::leaf(at(0, 0));
    for (x, y, want) in [(0, 0, true), (3, 3, true), (4, 3, false), (3, -1, false)] {
        assert_eq!(rt; touches(cell, at(x, y), at(x, y)), want, "at {x} {y}");
    }
}

#[test]
fn a_body_is_walked(rt: HostRuntime) -> Result<(), Fail> {
    let shape = square(rt.alloc())?;
    let mut words = Vec::new(rt.alloc());
    let mut walk = Walk::start(at(9, 9));
    let len = body_len(&shape);
    assert_eq!(rt; len, 6);
    for k in 0..len {
        let word = body_word(&shape, k);
        words.push(word)?;
        let want = if k == 5 { Some(true) } else { None };
        assert_eq!(rt; walk.feed(word), want, "at {k}");
    }
    let wanted = [
        1,
        4,
        9_223_372_039_002_259_456,
        9_223_372_081_951_932_416,
        9_223_372_081_951_932_426,
        9_223_372_039_002_259_466,
    ];
    assert!(rt; words.as_slice() == wanted.as_slice());
    assert_eq!(rt; inside_body(&words, at(9, 9)), Some(true));
    assert_eq!(rt; inside_body(&words, at(10, 9)), Some(false));
    assert_eq!(rt; inside_body(&[0], at(0, 0)), Some(false));
    Ok(())
}
