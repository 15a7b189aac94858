//! Worked updates: zones that come, go and change, and updates that are turned away.

ghost use Rattle.std.specs.Prelude.{◌≤◌, length};

use crate::{Super, Verdict, ZoneRef};
use act_geom::{Class, Shape};
use act_grid::{Cell, Point, Settings};
use std::alloc::Global;
use std::test::Fail;

/// The square with these corners.
fn square(alloc: Global, low: (i32, i32), high: (i32, i32)) -> Result<Shape, Fail> {
    let mut shape = Shape::new(alloc);
    let at = |x, y| Point { x, y };
    let ring = [
        at(low.0, low.1),
        at(high.0, low.1),
        at(high.0, high.1),
        at(low.0, high.1),
    ];
    shape.push_ring(&ring)?;
    Ok(shape)
}

fn empty(alloc: Global, rows: u32, cells: u32) -> Result<Super, Fail> {
    let settings = Settings::new(0, rows, cells, 4).ok_or("limits")?;
    Ok(Super::new(alloc, settings))
}

/// Adds a zone, and tells why it was turned away.
fn add(state: &mut Super, alloc: Global, key: u32, shape: Shape) -> Option<Verdict> {
    match state.prepare_add(alloc, key, shape) {
        Ok(next) => {
            state.commit(next);
            None
        }
        Err(turned) => Some(turned.why),
    }
}

fn drop_zone(state: &mut Super, alloc: Global, key: u32) -> Option<Verdict> {
    match state.prepare_drop(alloc, key) {
        Ok(next) => {
            state.commit(next);
            None
        }
        Err(why) => Some(why),
    }
}

#[test]
fn zones_stand_by_key(rt: HostRuntime) -> Result<(), Fail> {
    let alloc = rt.alloc();
    let mut state = empty(alloc, 16_384, 64)?;
    for key in [7, 2, 9, 4] {
        assert_eq!(rt;
            add(&mut state, alloc, key, square(alloc, (0, 0), (5, 5))?),
            None
        );
    }
    assert_eq!(rt; drop_zone(&mut state, alloc, 4), None);
    assert_eq!(rt; state.zones(), 3);
    for (i, key) in [2, 7, 9].iter().enumerate() {
        assert_eq!(rt; state.zone_key(i as u32), *key);
        assert_eq!(rt; state.zone_shape(i as u32).vertices(), 4);
    }
    Ok(())
}

#[test]
fn updates_are_turned_away(rt: HostRuntime) -> Result<(), Fail> {
    let alloc = rt.alloc();
    let mut state = empty(alloc, 16_384, 64)?;
    assert_eq!(rt;
        add(&mut state, alloc, 7, square(alloc, (0, 0), (10, 10))?),
        None
    );
    let twice = state
        .prepare_add(alloc, 7, square(alloc, (0, 0), (5, 5))?)
        .err();
    let twice = twice.ok_or("accepted")?;
    assert_eq!(rt;
        (twice.why, twice.shape.vertices()),
        (Verdict::Duplicate, 4)
    );
    assert_eq!(rt; drop_zone(&mut state, alloc, 9), Some(Verdict::Unknown));
    let absent = state.prepare_replace(alloc, 9, square(alloc, (0, 0), (5, 5))?);
    assert_eq!(rt; absent.err().ok_or("accepted")?.why, Verdict::Unknown);
    let same = state.prepare_replace(alloc, 7, square(alloc, (0, 0), (10, 10))?);
    assert_eq!(rt; same.err().ok_or("accepted")?.why, Verdict::Same);
    Ok(())
}

#[test]
fn changes_tell_what_they_change(rt: HostRuntime) -> Result<(), Fail> {
    let alloc = rt.alloc();
    let mut state = empty(alloc, 16_384, 64)?;
    assert_eq!(rt;
        add(&mut state, alloc, 7, square(alloc, (0, 0), (10, 10))?),
        None
    );
    let Ok(next) = state.prepare_replace(alloc, 7, square(alloc, (0, 0), (5, 5))?) else {
        return Err("turned away".into());
    };
    assert_eq!(rt; (next.key(), next.size()), (Some(7), 8));
    assert!(rt; next.shape().is_some());
    assert_eq!(rt; next.class_on(Cell::root()), Some(Class::Mixed));
    assert_eq!(rt; state.zone_class(0, Cell::root().child(0)), Class::Outside);
    state.commit(next);
    let Ok(next) = state.prepare_add(alloc, 8, square(alloc, (0, 0), (5, 5))?) else {
        return Err("turned away".into());
    };
    assert!(rt; next.into_shape().is_some());
    assert_eq!(rt; state.zones(), 1);
    Ok(())
}

/// A square whose one cell of level 28 lies in seven nodes, and two such squares far apart.
#[test]
fn rows_are_counted(rt: HostRuntime) -> Result<(), Fail> {
    let alloc = rt.alloc();
    let mut state = empty(alloc, 8, 64)?;
    assert_eq!(rt; state.size(), 1);
    assert_eq!(rt;
        add(&mut state, alloc, 7, square(alloc, (0, 0), (10, 10))?),
        None
    );
    assert_eq!(rt; state.size(), 8);
    let turned = add(
        &mut state,
        alloc,
        2,
        square(alloc, (-1008, -1008), (-998, -998))?,
    );
    assert_eq!(rt; turned, Some(Verdict::Rows { need: 15, limit: 8 }));
    assert_eq!(rt; drop_zone(&mut state, alloc, 7), None);
    assert_eq!(rt;
        add(
            &mut state,
            alloc,
            2,
            square(alloc, (-1008, -1008), (-998, -998))?
        ),
        None
    );
    assert_eq!(rt; state.size(), 8);
    Ok(())
}

/// The square's one leaf has level 28 and one candidate.
#[test]
fn leaves_have_references(rt: HostRuntime) -> Result<(), Fail> {
    let alloc = rt.alloc();
    let mut state = empty(alloc, 16_384, 64)?;
    let origin = Point { x: 0, y: 0 };
    assert_eq!(rt; state.leaf(origin), Cell::root());
    assert_eq!(rt;
        add(&mut state, alloc, 7, square(alloc, (0, 0), (10, 10))?),
        None
    );
    let leaf = state.leaf(origin);
    assert_eq!(rt; (leaf.level(), leaf.id()), (28, 1_729_382_256_910_270_480));
    let refs = state.refs(alloc, leaf)?;
    assert_eq!(rt;
        refs.as_slice(),
        [ZoneRef { key: 7, hit: false }].as_slice()
    );
    let node = state.node(alloc, Cell::root())?;
    assert_eq!(rt;
        (node.leaves.as_slice().len(), node.children.as_slice().len()),
        (12, 1)
    );
    assert_eq!(rt; node.refs.len(), 12);
    let far = state.leaf(Point { x: -1, y: -1 });
    assert!(rt; state.refs(alloc, far)?.as_slice().is_empty());
    let Ok(next) = state.prepare_drop(alloc, 7) else {
        return Err("turned away".into());
    };
    let root = next.leaf(&state, origin);
    assert_eq!(rt; root, Cell::root());
    assert!(rt; next.refs(alloc, &state, root)?.as_slice().is_empty());
    Ok(())
}

/// Squares over the origin with a budget of one cell, all of them on the root, and one more than a leaf may have.
#[test]
fn references_are_counted(rt: HostRuntime) -> Result<(), Fail> {
    let alloc = rt.alloc();
    let mut state = empty(alloc, 16_384, 1)?;
    for key in 0..510 {
        assert_eq!(rt;
            add(&mut state, alloc, key, square(alloc, (-5, -5), (5, 5))?),
            None
        );
    }
    assert_eq!(rt; state.size(), 512);
    let turned = add(&mut state, alloc, 510, square(alloc, (-5, -5), (5, 5))?);
    assert_eq!(rt; turned, Some(Verdict::Refs { need: 511 }));
    Ok(())
}

/// Points in the four leaves of a square, one, one, two and three by ascending id, and three outside of it.
const PLACES: [Point; 10] = [
    Point { x: 600, y: 600 },
    Point { x: 10, y: 10 },
    Point { x: -5, y: -5 },
    Point { x: 10, y: 600 },
    Point { x: 999, y: 999 },
    Point { x: -5, y: 7 },
    Point { x: 600, y: 10 },
    Point { x: 10, y: 1023 },
    Point { x: 512, y: 512 },
    Point { x: -5, y: -5 },
];

/// The ids of these leaves in the order of training.
const BY_COST: [u64; 4] = [
    1_729_382_256_910_385_152,
    1_729_382_256_910_352_384,
    1_729_382_256_910_286_848,
    1_729_382_256_910_319_616,
];

/// Whether training with the sample chooses just the cells with these ids.
fn chooses(
    state: &Super,
    alloc: Global,
    sample: &[Point],
    threshold: u32,
    ids: &[u64],
) -> Result<bool, Fail>
    requires threshold { 1 ≤ threshold }
    requires few { length sample.now ≤ 65536 }
{
    let cells = state.chosen(alloc, sample, threshold)?;
    let mut found = Vec::new(alloc);
    for cell in cells.as_slice() {
        found.push(cell.id())?;
    }
    Ok(found.as_slice() == ids)
}

#[test]
fn deepest_leaves_are_not_chosen(rt: HostRuntime) -> Result<(), Fail> {
    let alloc = rt.alloc();
    let mut state = empty(alloc, 16_384, 64)?;
    let small = square(alloc, (0, 0), (10, 10))?;
    assert_eq!(rt; add(&mut state, alloc, 7, small), None);
    assert!(rt; chooses(&state, alloc, &[Point { x: 0, y: 0 }; 5], 1, &[])?);
    Ok(())
}

#[test]
fn cells_are_chosen_by_cost(rt: HostRuntime) -> Result<(), Fail> {
    let alloc = rt.alloc();
    let mut state = empty(alloc, 16_384, 4)?;
    assert!(rt; chooses(&state, alloc, &PLACES, 1, &[])?);
    let large = square(alloc, (0, 0), (1000, 1000))?;
    assert_eq!(rt; add(&mut state, alloc, 7, large), None);
    assert!(rt; chooses(&state, alloc, &PLACES, 1, &BY_COST)?);
    assert!(rt; chooses(&state, alloc, &PLACES, 2, &BY_COST[..2])?);
    assert!(rt; chooses(&state, alloc, &PLACES, 4, &[])?);
    Ok(())
}

/// Two zones on the same leaves, each of which costs twice as much then.
#[test]
fn each_mixed_zone_costs(rt: HostRuntime) -> Result<(), Fail> {
    let alloc = rt.alloc();
    let mut state = empty(alloc, 16_384, 4)?;
    for key in [7, 8] {
        let large = square(alloc, (0, 0), (1000, 1000))?;
        assert_eq!(rt; add(&mut state, alloc, key, large), None);
    }
    assert!(rt; chooses(&state, alloc, &PLACES, 2, &BY_COST)?);
    assert!(rt; chooses(&state, alloc, &PLACES, 4, &BY_COST[..2])?);
    assert!(rt; chooses(&state, alloc, &PLACES, 6, &BY_COST[..1])?);
    Ok(())
}

/// The cells at the origin's north-east from the root down, so many of them.
fn way(alloc: Global, cells: u32) -> Result<Vec<Cell>, Fail> {
    let mut way = Vec::new(alloc);
    let mut cell = Cell::root();
    for _ in 0..cells {
        way.push(cell)?;
        if cell.level() < 28 {
            cell = cell.child(if cell.level() == 0 { 3 } else { 0 });
        }
    }
    Ok(way)
}

/// Squares over the origin with a budget of one cell, under these keys: the root is their leaf.
fn squares(alloc: Global, rows: u32, keys: u32) -> Result<Super, Fail> {
    let mut state = empty(alloc, rows, 1)?;
    for key in 0..keys {
        let why = add(&mut state, alloc, key, square(alloc, (-5, -5), (5, 5))?);
        if why.is_some() {
            return Err("turned away".into());
        }
    }
    Ok(state)
}

/// Trains the first of the cells that fit, and tells how many.
fn train(state: &mut Super, alloc: Global, cells: Vec<Cell>) -> Result<u32, Fail> {
    let next = state.train_with(alloc, cells)?;
    let split = next.split();
    state.commit(next);
    Ok(split)
}

/// Three squares over the origin: the lists of the leaves in the root node fill one row, and the node of the cell of
/// level 4 has a row and a list row of its own. That list goes on to the node of the cell of level 8.
#[test]
fn training_takes_rows(rt: HostRuntime) -> Result<(), Fail> {
    let alloc = rt.alloc();
    let origin = Point { x: 0, y: 0 };
    for (rows, given, trained, size) in [
        (5, 1, 1, 5),
        (6, 4, 4, 5),
        (6, 5, 4, 5),
        (6, 9, 4, 5),
        (7, 9, 8, 7),
        (64, 9, 9, 8),
    ] {
        let mut state = squares(alloc, rows, 3)?;
        let split = train(&mut state, alloc, way(alloc, given)?)?;
        assert_eq!(rt; (split, state.size()), (trained, size));
        assert_eq!(rt; state.trained().len(), trained as usize);
        assert_eq!(rt; state.leaf(origin).level(), trained);
        let next = state.train_with(alloc, Vec::new(alloc))?;
        assert_eq!(rt; (next.split(), next.size(), next.plain), (0, size, 5));
        assert!(rt; next.key().is_none() && next.shape().is_none());
    }
    Ok(())
}

/// After a cell that doesn't fit none is trained, though a later one would fit.
#[test]
fn training_skips_no_cell(rt: HostRuntime) -> Result<(), Fail> {
    let alloc = rt.alloc();
    let mut state = squares(alloc, 6, 3)?;
    assert_eq!(rt; train(&mut state, alloc, way(alloc, 4)?)?, 4);
    let mut cells = way(alloc, 5)?;
    cells.push(Cell::root().child(0))?;
    assert_eq!(rt; train(&mut state, alloc, cells)?, 4);
    Ok(())
}

/// Three squares, at most two of them in each quarter: the root's list falls away where the root is split.
#[test]
fn training_may_free_rows(rt: HostRuntime) -> Result<(), Fail> {
    let alloc = rt.alloc();
    let mut state = empty(alloc, 5, 1)?;
    for (key, low, high) in [
        (1, (-9, -5), (-5, 5)),
        (2, (5, -5), (9, 5)),
        (3, (-5, 5), (5, 9)),
    ] {
        assert_eq!(rt;
            add(&mut state, alloc, key, square(alloc, low, high)?),
            None
        );
    }
    assert_eq!(rt; state.size(), 5);
    assert_eq!(rt; train(&mut state, alloc, way(alloc, 1)?)?, 1);
    assert_eq!(rt; state.size(), 4);
    Ok(())
}

/// Trained cells give way to a zone, and don't come back when it goes.
#[test]
fn zones_come_before_trained_cells(rt: HostRuntime) -> Result<(), Fail> {
    let alloc = rt.alloc();
    let origin = Point { x: 0, y: 0 };
    let mut state = squares(alloc, 8, 3)?;
    assert_eq!(rt; train(&mut state, alloc, way(alloc, 5)?)?, 5);
    for (key, level, size) in [(3, 5, 8), (4, 4, 7)] {
        let Ok(next) = state.prepare_add(alloc, key, square(alloc, (-5, -5), (5, 5))?) else {
            return Err("turned away".into());
        };
        assert_eq!(rt; next.split(), 0);
        assert_eq!(rt; next.size(), size);
        assert_eq!(rt; next.trained().len(), level as usize);
        assert_eq!(rt; next.leaf(&state, origin).level(), level);
        assert_eq!(rt; state.leaf(origin).level(), 5);
        state.commit(next);
        assert_eq!(rt; state.size(), size);
        assert_eq!(rt; state.leaf(origin).level(), level);
    }
    assert_eq!(rt; drop_zone(&mut state, alloc, 4), None);
    assert_eq!(rt; state.size(), 6);
    assert_eq!(rt; state.leaf(origin).level(), 4);
    Ok(())
}
