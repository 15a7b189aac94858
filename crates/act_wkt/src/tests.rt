//! Texts with their shapes, and texts with their faults.

use crate::{
    WktFault, WktKind, no_list_is_cut_off, one_shape_or_fault, read, spelling_is_read_again, write,
};
use act_grid::Point;
use std::test::Fail;

#[test]
fn faults_have_their_kinds_and_places(rt: HostRuntime) {
    let cases: [(&[u8], WktKind, u32); 52] = [
        (b"", WktKind::Keyword, 0),
        (b"POINT(1 2)", WktKind::OtherType, 0),
        (b"SRID=4326;POLYGON EMPTY", WktKind::Keyword, 0),
        (
            b"POLYGON Z ((0 0 1,1 0 1,1 1 1,0 0 1))",
            WktKind::Dimension,
            8,
        ),
        (
            b"POLYGON((0 0 5,1 0 5,1 1 5,0 0 5))",
            WktKind::Dimension,
            13,
        ),
        (b"POLYGON(0 0,1 0,1 1,0 0)", WktKind::NoOpen, 8),
        (b"POLYGON((0 0,1 0,1 1,0 0)", WktKind::NoClose, 25),
        (b"POLYGON((0 x,1 0,1 1,0 0))", WktKind::Number, 11),
        (b"POLYGON((1-2 0,1 0,1 1,0 0))", WktKind::Number, 9),
        (b"POLYGON((3000000000 0,1 0,1 1,0 0))", WktKind::Range, 9),
        (b"POLYGON((0 0,1 0,0 0))", WktKind::TooFew, 20),
        (b"POLYGON((0 0,1 0,1 1,0 1))", WktKind::NotClosed, 24),
        (b"POLYGON EMPTY x", WktKind::Trailing, 14),
        // Behind blanks, at the end, and of words
        (b"  \t\r\n", WktKind::Keyword, 5),
        (b"  (", WktKind::Keyword, 2),
        (b" POLYGONS EMPTY", WktKind::Keyword, 1),
        (b"POLYGONEMPTY", WktKind::Keyword, 0),
        (b" polygonz EMPTY", WktKind::Dimension, 1),
        (b"MultiPolygonZM EMPTY", WktKind::Dimension, 0),
        (b"POLYGONMZ EMPTY", WktKind::Keyword, 0),
        (b"MULTIPOLYGON\nm EMPTY", WktKind::Dimension, 13),
        (b"POLYGON ZM EMPTY", WktKind::Dimension, 8),
        (b"LineString(0 0,1 1)", WktKind::OtherType, 0),
        (b"multipoint EMPTY", WktKind::OtherType, 0),
        (b"MULTILINESTRING EMPTY", WktKind::OtherType, 0),
        (b"GEOMETRYCOLLECTION EMPTY", WktKind::OtherType, 0),
        (b"TRIANGLE EMPTY", WktKind::OtherType, 0),
        (b"TIN EMPTY", WktKind::OtherType, 0),
        (b"POLYHEDRALSURFACE EMPTY", WktKind::OtherType, 0),
        (b"POLYGON", WktKind::NoOpen, 7),
        (b"POLYGON  ", WktKind::NoOpen, 9),
        (b"POLYGON EMPTYX", WktKind::NoOpen, 8),
        (b"POLYGON(EMPTY", WktKind::NoClose, 13),
        (b"POLYGON(EMPTY,)", WktKind::NoOpen, 14),
        (b"POLYGON()", WktKind::NoOpen, 8),
        (b"MULTIPOLYGON(EMPTY EMPTY)", WktKind::NoClose, 19),
        (b"MULTIPOLYGON((0 0,1 0,1 1,0 0))", WktKind::NoOpen, 14),
        (b"POLYGON(())", WktKind::Number, 9),
        (b"POLYGON((0,1 0,1 1,0 0))", WktKind::Number, 10),
        (b"POLYGON((0  ", WktKind::Number, 12),
        (b"POLYGON((0 1e,1 0,1 1,0 0))", WktKind::Number, 11),
        (b"POLYGON((((0 0", WktKind::Number, 9),
        (b"POLYGON((0 3000000000,1 0,1 1,0 0))", WktKind::Range, 11),
        (b"POLYGON((0 0 -5,1 0", WktKind::Dimension, 13),
        (b"POLYGON((0 0 .5,1 0", WktKind::Dimension, 13),
        (b"POLYGON((0 0 e5,1 0", WktKind::NoClose, 13),
        (b"POLYGON((0 0 x,1 0", WktKind::NoClose, 13),
        (b"POLYGON((0 0 (,1 0", WktKind::NoClose, 13),
        (b"POLYGON((0 0 ))", WktKind::TooFew, 13),
        (b"POLYGON((0 0,1 0,1 1,0 0),EMPTY x", WktKind::NoClose, 32),
        (b"POLYGON((0 0,1 0,1 1,0 0)) ,", WktKind::Trailing, 27),
        (b"POLYGON((0 0,1 0,1 1,0 0)))", WktKind::Trailing, 26),
    ];
    for (text, kind, place) in &cases {
        assert!(rt; text.len() < 1 << 32);
        let fault = WktFault::At {
            kind: *kind,
            place: *place,
        };
        assert_eq!(rt; read(rt.alloc(), text, 0).err(), Some(fault));
    }
}

const CORNER: [Point; 3] = [
    Point { x: 0, y: 0 },
    Point { x: 1, y: 0 },
    Point { x: 1, y: 1 },
];

#[test]
fn texts_have_their_rings(rt: HostRuntime) -> Result<(), Fail> {
    let cases: [(&[u8], u8, u32); 14] = [
        (b"polygon empty", 0, 0),
        (b"POLYGON(EMPTY)", 0, 0),
        (b"MULTIPOLYGON EMPTY", 0, 0),
        (b"MultiPolygon(EMPTY,(EMPTY,EMPTY))", 0, 0),
        (b"POLYGON((0 0,1 0,1 1,0 0))", 0, 1),
        (b"MULTIPOLYGON(((0 0,1 0,1 1,0 0)),EMPTY)", 0, 1),
        (b" \tPOLYGON\r\n( ( 0 0 ,1 0, 1\t1 ,0 \n 0 ) ) ", 0, 1),
        (b"POLYGON((0 0,.1 0.,1e-1 +1E-1,-0 0.04))", 1, 1),
        (b"POLYGON((0 0,1 0,1 1,0 0),(0 0,1 0,1 1,0 0))", 0, 2),
        (
            b"POLYGON(EMPTY,(0 0,1 0,1 1,0 0), EMPTY ,(0 0,1 0,1 1,0 0))",
            0,
            2,
        ),
        (
            b"MULTIPOLYGON(((0 0,1 0,1 1,0 0)),((0 0,1 0,1 1,0 0),(0 0,1 0,1 1,0 0)))",
            0,
            3,
        ),
        (
            b"MULTIPOLYGON(((0 0,1 0,1 1,0 0),EMPTY),EMPTY,((0 0,1 0,1 1,0 0)))",
            0,
            2,
        ),
        (b"POLYGON((0.4 -0.4,1.4 .4,.6 .5,0 0))", 0, 1),
        (b"POLYGON((0 0,1 0,1 1,0.49 0))", 0, 1),
    ];
    for (text, digits, rings) in &cases {
        assert!(rt; *digits <= 9 && text.len() < 1 << 32);
        let shape = read(rt.alloc(), text, *digits)?;
        assert_eq!(rt; shape.rings(), *rings);
        for k in 0..shape.rings() {
            assert_eq!(rt; shape.ring(k), CORNER.as_slice());
        }
    }
    let shape = read(rt.alloc(), b"POLYGON((0 0,.6 0,1.5 1,+1e0 1.,0 0))", 0)?;
    assert_eq!(rt; shape.rings(), 1);
    let ring = [
        Point { x: 0, y: 0 },
        Point { x: 1, y: 0 },
        Point { x: 2, y: 1 },
        Point { x: 1, y: 1 },
    ];
    assert_eq!(rt; shape.ring(0), ring.as_slice());
    Ok(())
}

#[test]
fn as_many_points_as_a_text_may_have(rt: HostRuntime) -> Result<(), Fail> {
    let mut text = Vec::from_slice(rt.alloc(), b"POLYGON((0 0")?;
    for _ in 1..262_144 {
        text.extend_from_slice(b",0 0")?;
    }
    text.extend_from_slice(b"))")?;
    assert!(rt; text.len() < 1 << 32);
    assert_eq!(rt; read(rt.alloc(), &text, 0)?.vertices(), 262_143);
    text.truncate(text.len() - 2);
    text.extend_from_slice(b",0 0))")?;
    assert!(rt; text.len() < 1 << 32);
    let fault = WktFault::At {
        kind: WktKind::Vertices,
        place: 1_048_585,
    };
    assert_eq!(rt; read(rt.alloc(), &text, 0).err(), Some(fault));
    Ok(())
}

#[test]
fn shapes_have_their_texts(rt: HostRuntime) -> Result<(), Fail> {
    let cases: [(&[u8], u8, &[u8]); 8] = [
        (b"polygon empty", 7, b"POLYGON EMPTY"),
        (b"MULTIPOLYGON(EMPTY,(EMPTY))", 0, b"POLYGON EMPTY"),
        (
            b"POLYGON((0 0,1 0,1 1,0 0))",
            0,
            b"POLYGON((0 0,1 0,1 1,0 0))",
        ),
        (
            b" polygon ( ( 0 0 , .6 0,1.5 1,+1e0 1., 0 0)) ",
            0,
            b"POLYGON((0 0,1 0,2 1,1 1,0 0))",
        ),
        (
            b"POLYGON((0 0,-1.5 0.25,12.05 -0.001,0 0))",
            3,
            b"POLYGON((0.000 0.000,-1.500 0.250,12.050 -0.001,0.000 0.000))",
        ),
        (
            b"POLYGON((2147483647 -2147483648,1 0,1 1,2147483647 -2147483648))",
            0,
            b"POLYGON((2147483647 -2147483648,1 0,1 1,2147483647 -2147483648))",
        ),
        (
            b"POLYGON((2.147483647 -2.147483648,1 0,1 1,2.147483647 -2.147483648))",
            9,
            b"POLYGON((2.147483647 -2.147483648,1.000000000 0.000000000,1.000000000 1.000000000,2.147483647 -2.147483648))",
        ),
        (
            b"MULTIPOLYGON(((0 0,1 0,1 1,0 0),(2 2,3 2,3 3,2 2)),((5 5,6 5,6 6,5 5)))",
            0,
            b"POLYGON((0 0,1 0,1 1,0 0),(2 2,3 2,3 3,2 2),(5 5,6 5,6 6,5 5))",
        ),
    ];
    for (text, digits, written) in &cases {
        assert!(rt; *digits <= 9 && text.len() < 1 << 32);
        let shape = read(rt.alloc(), text, *digits)?;
        let spelling = write(rt.alloc(), &shape, *digits)?;
        assert_eq!(rt; spelling.as_bytes(), *written);
        assert!(rt; spelling.as_bytes().len() < 1 << 32);
        let again = read(rt.alloc(), spelling.as_bytes(), *digits)?;
        assert_eq!(rt; write(rt.alloc(), &again, *digits)?.as_bytes(), *written);
    }
    one_shape_or_fault();
    spelling_is_read_again();
    no_list_is_cut_off();
    Ok(())
}
