//! Worked scripts, each with the status and the texts that a run over it gives.

ghost use Rattle.std.specs.Prelude.{◌<◌};

use crate::act_main;
use act_io::{MemSink, MemSource, NoGate};
use std::test::Fail;
use std::thread::Threads;

const WORDS: [&str; 3] = ["join", "--digits", "0"];

const USAGE: &str =
    "usage: actjoin join [--digits D] [--rows R] [--cells C] [--workers W] | demo N [--rows R] [--cells C] [--workers W]\n";

const FIRST: &str =
    "zone,7,\"POLYGON((0 0,10 0,10 10,0 10,0 0))\"\nsync\npoint,1,0,0\npoint,2,10,0\npoint,3,0,10\npoint,4,9,9\n";

const FIRST_TEXT: &str = "zone 7 ok\nbatch 1 after 1 points 4\n1,7\n4,7\n";

/// How a source or a sink deals bytes out: in pieces of some size, with some calls that fail.
#[derive(Clone, Copy)]
struct Deal<'a> {
    piece: usize,
    fails: &'a [u64],
    ghost some: { 0 < piece },
}

/// What a run gave.
#[derive(Drop)]
struct Told {
    status: u8,
    out: String,
    err: String,
}

fn run_on<R: AllocGlobal + Threads + Sync>(
    rt: &R,
    words: &[&str],
    script: &str,
    reads: Deal<'_>,
    writes: Deal<'_>,
) -> Result<Told, Fail> {
    let alloc = rt.alloc();
    let mut given = Vec::new(alloc);
    for word in words {
        given.push(word.to_string(alloc)?)?;
    }
    let mut input = MemSource::new(alloc, script.as_bytes(), reads.piece, reads.fails)?;
    let mut out = MemSink::new(alloc, 100_000, writes.piece, writes.fails)?;
    let mut err = MemSink::new(alloc, 1000, 4, [].as_slice())?;
    let status = act_main(rt, alloc, &given, &mut input, &mut out, &mut err, &NoGate);
    Ok(Told {
        status,
        out: String::from_utf8(out.bytes().to_vec(alloc)?)?,
        err: String::from_utf8(err.bytes().to_vec(alloc)?)?,
    })
}

/// A run where nothing fails.
fn run<R: AllocGlobal + Threads + Sync>(
    rt: &R,
    words: &[&str],
    script: &str,
) -> Result<Told, Fail> {
    let deal = Deal {
        piece: 4096,
        fails: &[],
    };
    run_on(rt, words, script, deal, deal)
}

#[test]
fn good_scripts(rt: HostRuntime) -> Result<(), Fail> {
    let alloc = rt.alloc();
    let square = "\"POLYGON((0 0,10 0,10 10,0 10,0 0))\"\n";
    let cases = [
        (FIRST.to_string(alloc)?, FIRST_TEXT),
        (String::new(alloc), ""),
        (
            format!(in alloc;
                "zone,7,{square}zone,8,\"POLYGON((10 0,20 0,20 10,10 10,10 0))\"\nsync\npoint,1,10,5\n"
            )?,
            "zone 7 ok\nzone 8 ok\nbatch 1 after 2 points 1\n1,8\n",
        ),
        (
            format!(in alloc;
                "zone,7,\"POLYGON((0 0,10 0,10 10,0 10,0 0),(2 2,2 8,8 8,8 2,2 2))\"\nsync\npoint,1,2,2\npoint,2,8,8\npoint,3,1,5"
            )?,
            "zone 7 ok\nbatch 1 after 1 points 3\n2,7\n3,7\n",
        ),
        (
            format!(in alloc; "zone,7,{square}zone,7,{square}drop,9\n")?,
            "zone 7 ok\nzone 7 refused duplicate\ndrop 9 refused unknown\n",
        ),
        (
            format!(in alloc; "zone,1,\"POLYGON EMPTY\"\ndrop,007\n")?,
            "zone 1 ok\ndrop 7 refused unknown\n",
        ),
        (
            format!(in alloc;
                "zone,7,{square}replace,7,{square}replace,9,{square}replace,7,\"POLYGON((0 0,20 0,20 10,0 10,0 0))\"\nsync\npoint,1,15,5\n"
            )?,
            "zone 7 ok\nreplace 7 refused same\nreplace 9 refused unknown\nreplace 7 ok\nbatch 1 after 2 points 1\n1,7\n",
        ),
        (
            format!(in alloc;
                "zone,7,{square}replace,7,\"POLYGON((10 0,10 10,0 10,0 0,10 0))\"\n"
            )?,
            "zone 7 ok\nreplace 7 ok\n",
        ),
        (
            format!(in alloc;
                "zone,7,{square}zone,16777223,{square}sync\npoint,1,5,5\nlayers,1\npoint,2,5,5\nlayers,2;5\npoint,3,5,5\nlayers,*\nlayers,0\npoint,4,5,5\n"
            )?,
            "zone 7 ok\nzone 16777223 ok\nbatch 1 after 2 points 1\n1,7\n1,16777223\nbatch 2 after 2 points 1\n2,16777223\nbatch 3 after 2 points 1\nbatch 4 after 2 points 1\n4,7\n",
        ),
        (
            format!(in alloc;
                "zone,7,\"POLYGON((1 -3,3 -3,3 -1,1 -1,1 -3))\"\nsync\npoint,18446744073709551615,1.5,-1.5\n"
            )?,
            "zone 7 ok\nbatch 1 after 1 points 1\n18446744073709551615,7\n",
        ),
    ];
    for (script, text) in &cases {
        for piece in [1usize, 7, 4096] {
            let deal = Deal { piece, fails: &[] };
            let told = run_on(&rt, &WORDS, script.as_str(), deal, deal)?;
            assert_eq!(rt; told.out.as_str(), *text);
            assert_eq!(rt; told.err.as_str(), "");
            assert_eq!(rt; told.status, 0);
        }
    }
    Ok(())
}

/// Costly cells are trained, and the answers stay. The sample is the points of earlier segments from that
/// of the training before on, so the second training of a segment has none.
#[test]
fn trainings(rt: HostRuntime) -> Result<(), Fail> {
    let alloc = rt.alloc();
    let zone = "zone,7,\"POLYGON((0 0,1000000 0,1000000 1000000,0 1000000,0 0))\"\n";
    let points = "point,1,300000,300000\npoint,2,300000,300000\n";
    let script = format!(in alloc;
        "{zone}sync\n{points}sync\ntrain,2\n{points}sync\ntrain,2\ntrain,2\ntrain,3\nsync\n{points}"
    )?;
    let words = ["join", "--digits", "0", "--cells", "1"];
    let told = run(&rt, &words, script.as_str())?;
    let text =
        "zone 7 ok\nbatch 1 after 1 points 2\n1,7\n2,7\ntrain split 1\nbatch 2 after 1 points 2\n1,7\n2,7\ntrain split 1\ntrain split 0\ntrain split 0\nbatch 3 after 1 points 2\n1,7\n2,7\n";
    assert_eq!(rt; told.out.as_str(), text);
    assert_eq!(rt; told.err.as_str(), "");
    assert_eq!(rt; told.status, 0);
    Ok(())
}

/// Lines, each with its fault.
static BAD_LINES: [(&str, &str); 34] = [
    ("circle,1", "unknown record"),
    ("Zone,1,\"POLYGON EMPTY\"", "unknown record"),
    ("train,0", "bad threshold"),
    ("train,4294967296", "bad threshold"),
    ("train,1,1", "wrong fields"),
    ("\0", "unknown record"),
    ("point,1,0", "wrong fields"),
    ("batch,1", "wrong fields"),
    ("layers", "wrong fields"),
    ("zone,1,\"POLYGON EMPTY\"\"", "wrong fields"),
    ("syn\rc", "wrong fields"),
    ("zone,-1,\"POLYGON EMPTY\"", "bad key"),
    ("drop,4294967296", "bad key"),
    ("point,x,0,0", "bad point id"),
    ("layers,256", "bad layers"),
    ("layers,", "bad layers"),
    ("layers,1;", "bad layers"),
    ("point,1,a,99999999999", "bad number"),
    ("point,1,99999999999,a", "number out of range"),
    ("zone,1,", "wkt keyword at 0"),
    ("zone,1,POINT(1 2)", "wkt other type at 0"),
    (
        "zone,1,\"POLYGON Z ((0 0 1,1 0 1,1 1 1,0 0 1))\"",
        "wkt dimension at 8",
    ),
    (
        "zone,1,\"POLYGON((0 0 5,1 0 5,1 1 5,0 0 5))\"",
        "wkt dimension at 13",
    ),
    ("zone,1,\"POLYGON(0 0,1 0,1 1,0 0)\"", "wkt no open at 8"),
    ("zone,1,\"POLYGON((0 0,1 0,1 1,0 0)\"", "wkt no close at 25"),
    ("zone,1,\"POLYGON((0 x,1 0,1 1,0 0))\"", "wkt number at 11"),
    ("zone,1,\"POLYGON((1-2 0,1 0,1 1,0 0))\"", "wkt number at 9"),
    ("zone,1,\"POLYGON((((0 0\"", "wkt number at 9"),
    (
        "zone,1,\"POLYGON((3000000000 0,1 0,1 1,0 0))\"",
        "wkt range at 9",
    ),
    (
        "zone,1,\"POLYGON((0 0,1 0,0 0))\"",
        "wkt too few points at 20",
    ),
    (
        "zone,1,\"POLYGON((0 0,1 0,1 1,0 1))\"",
        "wkt not closed at 24",
    ),
    ("zone,1,\"POLYGON EMPTY x\"", "wkt trailing at 14"),
    ("replace,1,POLYGON", "wkt no open at 7"),
    ("replace,4294967296,POLYGON", "bad key"),
];

#[test]
fn bad_lines(rt: HostRuntime) -> Result<(), Fail> {
    let alloc = rt.alloc();
    let words = ["join", "--digits", "0", "--rows", "16"];
    for (line, fault) in &BAD_LINES {
        let told = run(&rt, &words, line)?;
        let wanted = format!(in alloc; "line 1: {fault}\n")?;
        assert_eq!(rt; told.err.as_str(), wanted.as_str());
        assert_eq!(rt; told.out.as_str(), "");
        assert_eq!(rt; told.status, 2);
    }
    Ok(())
}

/// The segments before that of the bad line are answered, and no other.
#[test]
fn a_bad_line_later(rt: HostRuntime) -> Result<(), Fail> {
    let alloc = rt.alloc();
    let script = format!(in alloc; "{FIRST}\nsync\nzone,8,\"POLYGON((0 0,10")?;
    let told = run(&rt, &WORDS, script.as_str())?;
    assert_eq!(rt; told.out.as_str(), FIRST_TEXT);
    assert_eq!(rt; told.err.as_str(), "line 9: wrong fields\n");
    assert_eq!(rt; told.status, 2);
    let script = format!(in alloc; "{FIRST}circle,1\n")?;
    let told = run(&rt, &WORDS, script.as_str())?;
    assert_eq!(rt; told.out.as_str(), "zone 7 ok\n");
    assert_eq!(rt; told.err.as_str(), "line 7: unknown record\n");
    assert_eq!(rt; told.status, 2);
    Ok(())
}

/// Without a sync the batch may come before the zone or after it.
#[test]
fn either_count_without_a_sync(rt: HostRuntime) -> Result<(), Fail> {
    let script =
        "zone,7,\"POLYGON((0 0,10 0,10 10,0 10,0 0))\"\npoint,1,0,0\npoint,2,10,0\npoint,3,0,10\npoint,4,9,9\n";
    let words = ["join", "--digits", "0", "--workers", "4"];
    let told = run(&rt, &words, script)?;
    let before = told.out.as_str() == "zone 7 ok\nbatch 1 after 0 points 4\n";
    let after = told.out.as_str() == FIRST_TEXT;
    assert!(rt; before || after);
    assert_eq!(rt; told.status, 0);
    Ok(())
}

/// A batch ends at its 8,192nd point.
#[test]
fn a_full_batch(rt: HostRuntime) -> Result<(), Fail> {
    let alloc = rt.alloc();
    let mut script = String::from_str(
        alloc,
        "zone,7,\"POLYGON((0 0,10 0,10 10,0 10,0 0))\"\nsync\n",
    )?;
    let mut text = String::from_str(alloc, "zone 7 ok\nbatch 1 after 1 points 8192\n")?;
    for id in 1u32..8193 {
        let point = format!(in alloc; "point,{id},0,0\n")?;
        script.push_str(point.as_str())?;
        let pair = format!(in alloc; "{id},7\n")?;
        text.push_str(pair.as_str())?;
    }
    script.push_str("point,8193,0,0\n")?;
    text.push_str("batch 2 after 1 points 1\n8193,7\n")?;
    let told = run(&rt, &WORDS, script.as_str())?;
    assert!(rt; told.out == text);
    assert_eq!(rt; told.status, 0);
    Ok(())
}

#[test]
fn words_that_fit(rt: HostRuntime) -> Result<(), Fail> {
    let script =
        "zone,132,\"MULTIPOLYGON (((-73.97177410965318 40.72582128133705, -73.95177410965318 40.72582128133705, -73.95177410965318 40.74582128133705, -73.97177410965318 40.74582128133705, -73.97177410965318 40.72582128133705)))\"\nsync\npoint,1,-73.96,40.73\npoint,2,-73.98,40.73\n";
    let seven = ["join", "--digits=7", "--workers", "8"];
    for words in [&["join"][..], &seven[..]] {
        let told = run(&rt, words, script)?;
        assert_eq!(rt;
            told.out.as_str(),
            "zone 132 ok\nbatch 1 after 1 points 2\n1,132\n"
        );
        assert_eq!(rt; told.err.as_str(), "");
        assert_eq!(rt; told.status, 0);
    }
    Ok(())
}

/// Words that don't fit, parted by blanks.
static OTHER_WORDS: [&str; 14] = [
    "join --digits 10",
    "join --digits 7 --digits 7",
    "join --",
    "join --rows -1",
    "join --rows +1",
    "join --rows=",
    "join 4",
    "demo",
    "demo 0",
    "demo 17",
    "demo 4 4",
    "--help",
    "--version",
    "--digits 0 join",
];

#[test]
fn words_that_do_not_fit(rt: HostRuntime) -> Result<(), Fail> {
    let none = run(&rt, &[], FIRST)?;
    assert_eq!(rt; none.err.as_str(), USAGE);
    assert_eq!(rt; none.status, 1);
    for line in &OTHER_WORDS {
        let mut words = Vec::new(rt.alloc());
        for word in line.split(' ') {
            words.push(word)?;
        }
        let told = run(&rt, &words, FIRST)?;
        assert_eq!(rt; told.out.as_str(), "");
        assert_eq!(rt; told.err.as_str(), USAGE);
        assert_eq!(rt; told.status, 1);
    }
    Ok(())
}

/// Words that ask for a demo, parted by blanks, with what it writes.
static DEMOS: [(&str, &str); 5] = [
    (
        "demo 1",
        "zones 1\nbatches 2\npoints 800\npairs 800\nkeys 0\n",
    ),
    (
        "demo 2",
        "zones 4\nbatches 2\npoints 3200\npairs 2400\nkeys 3200\n",
    ),
    (
        "demo 4 --workers 1",
        "zones 16\nbatches 2\npoints 12800\npairs 9600\nkeys 70400\n",
    ),
    (
        "demo 4 --workers 8",
        "zones 16\nbatches 2\npoints 12800\npairs 9600\nkeys 70400\n",
    ),
    (
        "demo --workers 8 4",
        "zones 16\nbatches 2\npoints 12800\npairs 9600\nkeys 70400\n",
    ),
];

#[test]
fn demos(rt: HostRuntime) -> Result<(), Fail> {
    for (line, text) in &DEMOS {
        let mut words = Vec::new(rt.alloc());
        for word in line.split(' ') {
            words.push(word)?;
        }
        let told = run(&rt, &words, FIRST)?;
        assert_eq!(rt; told.out.as_str(), *text);
        assert_eq!(rt; told.err.as_str(), "");
        assert_eq!(rt; told.status, 0);
    }
    Ok(())
}

#[test]
fn reads_fail(rt: HostRuntime) -> Result<(), Fail> {
    let writes = Deal {
        piece: 4,
        fails: &[],
    };
    // The sizes of pieces, which read fails, and the text of the segments that were closed by then.
    for (piece, fails, text) in [(8usize, 3u64, ""), (1, 49, ""), (1, 50, "zone 7 ok\n")] {
        let reads = Deal {
            piece,
            fails: &[fails],
        };
        let told = run_on(&rt, &WORDS, FIRST, reads, writes)?;
        assert_eq!(rt; told.out.as_str(), text);
        assert_eq!(rt; told.err.as_str(), "read fault\n");
        assert_eq!(rt; told.status, 3);
    }
    Ok(())
}

#[test]
fn writes_fail(rt: HostRuntime) -> Result<(), Fail> {
    let reads = Deal {
        piece: 8,
        fails: &[],
    };
    let writes = Deal {
        piece: 4,
        fails: &[2],
    };
    let told = run_on(&rt, &WORDS, FIRST, reads, writes)?;
    assert_eq!(rt; told.out.as_str(), "zone");
    assert_eq!(rt; told.err.as_str(), "write fault\n");
    assert_eq!(rt; told.status, 4);
    Ok(())
}
