//! Command lines, with the settings that they ask for.

use crate::{Asked, parse_words};
use std::alloc::{AllocError, Global};
use std::test::Fail;

/// Words parted by blanks, with digits, rows, cells and workers where they fit.
static CASES: [(&str, Option<(u8, u32, u32, u32)>); 32] = [
    ("join", Some((7, 16_384, 64, 4))),
    ("join --digits=0 --workers 8", Some((0, 16_384, 64, 8))),
    (
        "join --workers 8 --cells 1024 --rows=262144 --digits 9",
        Some((9, 262_144, 1024, 8)),
    ),
    ("join --cells 0000000001", Some((7, 16_384, 1, 4))),
    ("join --rows 1 --cells 1 --workers 1", Some((7, 1, 1, 1))),
    ("join --workers=64", Some((7, 16_384, 64, 64))),
    ("join --digits 10", None),
    ("join --rows 0", None),
    ("join --rows 262145", None),
    ("join --cells 0", None),
    ("join --cells 1025", None),
    ("join --workers 0", None),
    ("join --workers 65", None),
    ("join --rows -1", None),
    ("join --rows +1", None),
    ("join --rows=", None),
    ("join --rows", None),
    ("join --rows 00000000001", None),
    ("join --digits 1 --digits 1", None),
    ("join --digits 1 --digits=1", None),
    ("join --digits --rows", None),
    ("join --digits 1 2", None),
    ("join --", None),
    ("join -- --digits 1", None),
    ("join --digit 1", None),
    ("join -d 1", None),
    ("join --help", None),
    ("join -h", None),
    ("join help", None),
    ("--digits 1 join", None),
    ("--version", None),
    ("help", None),
];

/// Words after `demo` parted by blanks, with how many zones a side, rows, cells and workers where they fit.
static DEMOS: [(&str, Option<(u8, u32, u32, u32)>); 15] = [
    ("demo 4", Some((4, 16_384, 64, 4))),
    ("demo --workers 8 4", Some((4, 16_384, 64, 8))),
    ("demo 4 --workers 8", Some((4, 16_384, 64, 8))),
    (
        "demo --rows=9 016 --cells 3 --workers=1",
        Some((16, 9, 3, 1)),
    ),
    ("demo 01", Some((1, 16_384, 64, 4))),
    ("demo 0", None),
    ("demo 17", None),
    ("demo 4 4", None),
    ("demo", None),
    ("demo -4", None),
    ("demo 4 --digits 0", None),
    ("demo --digits=0 4", None),
    ("demo --rows 4", None),
    ("demo 4 --", None),
    ("4 demo", None),
];

fn words_of(alloc: Global, line: &str) -> Result<Vec<String>, AllocError> {
    let mut words = Vec::new(alloc);
    for word in line.split(' ') {
        words.push(String::from_str(alloc, word)?)?;
    }
    Ok(words)
}

#[test]
fn words(rt: HostRuntime) -> Result<(), Fail> {
    let alloc = rt.alloc();
    for (line, wanted) in &CASES {
        let told = match parse_words(alloc, &words_of(alloc, line)?)? {
            Some(Asked::Join(s)) => Some((s.digits, s.rows, s.cells, s.workers)),
            _ => None,
        };
        assert_eq!(rt; told, *wanted, "at {line}");
    }
    let none = parse_words(alloc, &[])?;
    assert!(rt; none.is_none());
    Ok(())
}

#[test]
fn words_of_demos(rt: HostRuntime) -> Result<(), Fail> {
    let alloc = rt.alloc();
    for (line, wanted) in &DEMOS {
        let told = match parse_words(alloc, &words_of(alloc, line)?)? {
            Some(Asked::Demo(count, s)) => Some((count, s.rows, s.cells, s.workers)),
            _ => None,
        };
        assert_eq!(rt; told, *wanted, "at {line}");
    }
    Ok(())
}
