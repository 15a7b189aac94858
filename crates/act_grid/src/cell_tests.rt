//! Worked rows of cells and of sets of layers.

use crate::{Cell, Hull, Layers, Point, Slot};

fn at(x: i32, y: i32) -> Point {
    Point { x, y }
}

#[test]
fn ids_are_as_written(rt: HostRuntime) {
    let root = Cell::root();
    let leaf = Cell::leaf(at(0, 0));
    assert_eq!(rt; root.id(), 1_152_921_504_606_846_976);
    assert_eq!(rt; leaf.id(), 1_729_382_256_910_270_465);
    assert_eq!(rt; Cell::from_id(root.id()), Some(root));
    assert_eq!(rt; Cell::from_id(leaf.id()), Some(leaf));
    for id in [0, 2, 8, 2_305_843_009_213_693_952, u64::MAX] {
        assert_eq!(rt; Cell::from_id(id), None, "at {id}");
    }
}

#[test]
fn paths_go_up_and_down(rt: HostRuntime) {
    let leaf = Cell::leaf(at(0, 0));
    assert!(rt; leaf.level() > 1);
    let parent = leaf.parent();
    assert!(rt; parent.level() > 0);
    let above = parent.parent();
    assert_eq!(rt; (leaf.level(), above.level()), (30, 28));
    assert_eq!(rt; above.id(), 1_729_382_256_910_270_480);
    assert!(rt; above.level() < 30);
    assert_eq!(rt; above.child(0), parent);
    assert_ne!(rt; above.child(1), parent);
}

#[test]
fn hulls_are_closed_squares(rt: HostRuntime) {
    let root = Cell::root();
    assert_eq!(rt;
        root.hull(),
        Hull {
            lo: at(i32::MIN, i32::MIN),
            hi: at(i32::MAX, i32::MAX)
        }
    );
    let quarters = [
        (at(i32::MIN, i32::MIN), at(-1, -1)),
        (at(0, i32::MIN), at(i32::MAX, -1)),
        (at(i32::MIN, 0), at(-1, i32::MAX)),
        (at(0, 0), at(i32::MAX, i32::MAX)),
    ];
    assert!(rt; root.level() < 30);
    assert_eq!(rt;
        root.child(0).hull(),
        Hull {
            lo: quarters[0].0,
            hi: quarters[0].1
        }
    );
    assert_eq!(rt;
        root.child(1).hull(),
        Hull {
            lo: quarters[1].0,
            hi: quarters[1].1
        }
    );
    assert_eq!(rt;
        root.child(2).hull(),
        Hull {
            lo: quarters[2].0,
            hi: quarters[2].1
        }
    );
    assert_eq!(rt;
        root.child(3).hull(),
        Hull {
            lo: quarters[3].0,
            hi: quarters[3].1
        }
    );
    let leaf = Cell::leaf(at(-5, 6));
    assert_eq!(rt;
        leaf.hull(),
        Hull {
            lo: at(-8, 4),
            hi: at(-5, 7)
        }
    );
    for (x, y, want) in [
        (-8, 4, true),
        (-5, 7, true),
        (-4, 7, false),
        (-9, 4, false),
        (-5, 8, false),
        (-5, 3, false),
    ] {
        assert_eq!(rt; leaf.contains(at(x, y)), want, "at {x} {y}");
    }
}

#[test]
fn slots_fill_a_node(rt: HostRuntime) {
    let root = Cell::root();
    assert_eq!(rt;
        root.slot(0),
        Slot {
            first: 0,
            count: 256
        }
    );
    assert!(rt; root.level() < 30);
    let child = root.child(3);
    assert_eq!(rt; child.level(), 1);
    assert_eq!(rt;
        child.slot(0),
        Slot {
            first: 192,
            count: 64
        }
    );
    assert!(rt; child.level() < 30);
    let grandchild = child.child(1);
    assert_eq!(rt; grandchild.level(), 2);
    assert_eq!(rt;
        grandchild.slot(0),
        Slot {
            first: 208,
            count: 16
        }
    );
}

#[test]
fn layers_are_sets(rt: HostRuntime) {
    let two = Layers::none().with(2).with(5);
    for (key, want) in [
        (7, false),
        (33_554_432, true),
        (50_331_647, true),
        (50_331_648, false),
        (83_886_080, true),
        (u32::MAX, false),
    ] {
        assert_eq!(rt; two.has(key), want, "at {key}");
        assert!(rt; Layers::all().has(key));
        assert!(rt; !Layers::none().has(key));
    }
    assert_eq!(rt; two.with(255).has(u32::MAX), true);
    assert_eq!(rt; two.with(5), two);
}
