//! Whole scripts, digits 0.

ghost use Rattle.std.specs.Prelude.{◌<◌};

use crate::{Ended, ScriptFault, engine};
use act_grid::Settings;
use act_io::{Gate, MemSink, MemSource, NoGate, Place, Sink, Source, SureSink, SureSource};
use act_script::{CutFault, LineFault};
use std::alloc::Global;
use std::sync::atomic::{AtomicU64, Ordering};
use std::test::Fail;
use std::thread::Threads;

/// A zone, the end of its segment, and four points.
const FOUR_POINTS: &str =
    "zone,7,\"POLYGON((0 0,10 0,10 10,0 10,0 0))\"\nsync\npoint,1,0,0\npoint,2,10,0\npoint,3,0,10\npoint,4,9,9";

const FOUR_POINTS_TEXT: &str = "zone 7 ok\nbatch 1 after 1 points 4\n1,7\n4,7\n";

/// Runs the script of an input.
fn run<T: Threads + Sync, S: Source, K: Sink>(
    rt: &T,
    alloc: Global,
    input: &mut S,
    out: &mut K,
) -> Ended {
    match Settings::new(0, 256, 64, 4) {
        Some(settings) => engine(rt, alloc, settings, input, out, &NoGate),
        None => Ended::NoMemory,
    }
}

/// Runs a script that comes in pieces of at most so many bytes, and keeps what was written.
fn run_pieces<T: Threads + Sync>(
    rt: &T,
    alloc: Global,
    script: &[u8],
    piece: usize,
) -> Result<(Ended, MemSink), Fail>
    requires { 0 < piece }
{
    let mut input = MemSource::new(alloc, script, piece, [].as_slice())?;
    let mut out = MemSink::new(alloc, 4096, 100, [].as_slice())?;
    let ended = run(rt, alloc, &mut input, &mut out);
    Ok((ended, out))
}

#[test]
fn scripts_have_their_replies(rt: HostRuntime) -> Result<(), Fail> {
    let alloc = rt.alloc();
    let large = "\"POLYGON((0 0,10 0,10 10,0 10,0 0))\"\n";
    let square = "\"POLYGON((0 0,9 0,9 9,0 9,0 0))\"\n";
    let small = "\"POLYGON((0 0,4 0,4 4,0 4,0 0))\"\n";
    let cases = [
        (format!(in alloc; "{FOUR_POINTS}")?, FOUR_POINTS_TEXT),
        (format!(in alloc; "")?, ""),
        (
            format!(in alloc;
                "zone,7,{large}zone,8,\"POLYGON((10 0,20 0,20 10,10 10,10 0))\"\nsync\npoint,1,10,5"
            )?,
            "zone 7 ok\nzone 8 ok\nbatch 1 after 2 points 1\n1,8\n",
        ),
        (
            format!(in alloc;
                "zone,7,\"POLYGON((0 0,10 0,10 10,0 10,0 0),(2 2,2 8,8 8,8 2,2 2))\"\nsync\npoint,1,2,2\npoint,2,8,8\npoint,3,1,5\n"
            )?,
            "zone 7 ok\nbatch 1 after 1 points 3\n2,7\n3,7\n",
        ),
        (
            format!(in alloc; "zone,7,{square}zone,7,{square}drop,9\n")?,
            "zone 7 ok\nzone 7 refused duplicate\ndrop 9 refused unknown\n",
        ),
        (
            format!(in alloc;
                "replace,7,{square}zone,7,{square}replace,7,{square}replace,7,{small}sync\npoint,1,6,6\n"
            )?,
            "replace 7 refused unknown\nzone 7 ok\nreplace 7 refused same\nreplace 7 ok\nbatch 1 after 2 points 1\n",
        ),
        (
            format!(in alloc;
                "zone,9,{square}zone,2,{square}sync\npoint,11,5,5\npoint,10,8,2\nbatch\n"
            )?,
            "zone 9 ok\nzone 2 ok\nbatch 1 after 2 points 2\n11,2\n11,9\n10,2\n10,9\n",
        ),
        (
            format!(in alloc;
                "point,1,5,5\nbatch\nsync\nzone,7,{square}sync\npoint,2,5,5\nbatch\nsync\ndrop,7\nsync\npoint,3,5,5\nbatch\n"
            )?,
            "batch 1 after 0 points 1\nzone 7 ok\nbatch 2 after 1 points 1\n2,7\ndrop 7 ok\nbatch 3 after 2 points 1\n",
        ),
        (
            format!(in alloc;
                "zone,1,{square}zone,16777217,{square}sync\nlayers,1\npoint,1,5,5\nlayers,2\npoint,2,5,5\nlayers,*\npoint,3,5,5\n"
            )?,
            "zone 1 ok\nzone 16777217 ok\nbatch 1 after 2 points 1\n1,16777217\nbatch 2 after 2 points 1\nbatch 3 after 2 points 1\n3,1\n3,16777217\n",
        ),
        (
            format!(in alloc; "zone,7,{square}sync\ndrop,7\nsync\npoint,1,5,5\n")?,
            "zone 7 ok\ndrop 7 ok\nbatch 1 after 2 points 1\n",
        ),
    ];
    for (script, wanted) in &cases {
        for piece in [1, 7, 4096] {
            let (ended, out) = run_pieces(&rt, alloc, script.as_str().as_bytes(), piece)?;
            assert_eq!(rt; ended, Ended::Done);
            assert_eq!(rt; out.bytes(), wanted.as_bytes());
        }
    }
    Ok(())
}

/// Runs a script with one cell for a covering.
fn run_trained<T: Threads + Sync>(
    rt: &T,
    alloc: Global,
    script: &str,
) -> Result<(Ended, MemSink), Fail> {
    let mut input = MemSource::new(alloc, script.as_bytes(), 4096, [].as_slice())?;
    let mut out = MemSink::new(alloc, 4096, 100, [].as_slice())?;
    let ended = match Settings::new(0, 256, 1, 4) {
        Some(settings) => engine(rt, alloc, settings, &mut input, &mut out, &NoGate),
        None => Ended::NoMemory,
    };
    Ok((ended, out))
}

#[test]
fn trainings_have_their_samples(rt: HostRuntime) -> Result<(), Fail> {
    let alloc = rt.alloc();
    let zone = "zone,7,\"POLYGON((0 0,1000000 0,1000000 1000000,0 1000000,0 0))\"\n";
    let five =
        "point,1,300000,300000\npoint,2,300000,300000\npoint,3,300000,300000\npoint,4,300000,300000\npoint,5,300000,300000\n";
    let told = "1,7\n2,7\n3,7\n4,7\n5,7\n";
    let cases = [
        (
            format!(in alloc;
                "{zone}sync\n{five}sync\ntrain,5\n{five}sync\ntrain,5\nsync\n{five}"
            )?,
            format!(in alloc;
                "zone 7 ok\nbatch 1 after 1 points 5\n{told}train split 1\nbatch 2 after 1 points 5\n{told}train split 1\nbatch 3 after 1 points 5\n{told}"
            )?,
        ),
        (
            format!(in alloc;
                "{zone}sync\n{five}batch\ntrain,5\nsync\ntrain,5\ntrain,1\nsync\ntrain,1\n"
            )?,
            format!(in alloc;
                "zone 7 ok\nbatch 1 after 1 points 5\n{told}train split 0\ntrain split 1\ntrain split 0\ntrain split 0\n"
            )?,
        ),
        (
            format!(in alloc;
                "{five}sync\n{five}sync\n{zone}train,11\nsync\ntrain,1\n{five}sync\ntrain,6\ntrain,1\n"
            )?,
            format!(in alloc;
                "batch 1 after 0 points 5\nbatch 2 after 0 points 5\nzone 7 ok\ntrain split 0\ntrain split 0\nbatch 3 after 1 points 5\n{told}train split 0\ntrain split 0\n"
            )?,
        ),
        (
            format!(in alloc;
                "{five}sync\n{five}sync\n{zone}train,10\ndrop,7\ndrop,7\nsync\n{five}"
            )?,
            format!(in alloc;
                "batch 1 after 0 points 5\nbatch 2 after 0 points 5\nzone 7 ok\ntrain split 1\ndrop 7 ok\ndrop 7 refused unknown\nbatch 3 after 2 points 5\n"
            )?,
        ),
    ];
    for (script, wanted) in &cases {
        let (ended, out) = run_trained(&rt, alloc, script.as_str())?;
        assert_eq!(rt; ended, Ended::Done);
        assert_eq!(rt; out.bytes(), wanted.as_str().as_bytes());
    }
    Ok(())
}

#[test]
fn a_bad_line_ends_the_run(rt: HostRuntime) -> Result<(), Fail> {
    let alloc = rt.alloc();
    let zone = "zone,7,\"POLYGON((0 0,10 0,10 10,0 10,0 0))\"\n";
    let cases = [
        (
            format!(in alloc; "{zone}sync\nzone,8,\"POLYGON((0 0,10")?,
            3,
            LineFault::Fields,
            "zone 7 ok\n",
        ),
        (
            format!(in alloc; "{zone}none\nsync\n")?,
            2,
            LineFault::Kind,
            "",
        ),
        (
            format!(in alloc; "\n \n{zone}sync\n\ndrop,x\nnone")?,
            6,
            LineFault::Key,
            "zone 7 ok\n",
        ),
    ];
    for (script, line, fault, wanted) in &cases {
        for piece in [1, 7, 4096] {
            let (ended, out) = run_pieces(&rt, alloc, script.as_str().as_bytes(), piece)?;
            let bad = Ended::BadLine {
                line: *line,
                fault: ScriptFault::Line(*fault),
            };
            assert_eq!(rt; ended, bad);
            assert_eq!(rt; out.bytes(), wanted.as_bytes());
        }
    }
    Ok(())
}

#[test]
fn the_longest_line(rt: HostRuntime) -> Result<(), Fail> {
    let alloc = rt.alloc();
    let kind = ScriptFault::Line(LineFault::Kind);
    let long = ScriptFault::Cut(CutFault::LineLong);
    let cases = [
        (0, 16_777_216, 1, kind),
        (0, 16_777_217, 1, long),
        (2, 16_777_217, 3, long),
    ];
    for (blank, bytes, line, fault) in cases {
        let mut script = vec![in alloc; b'\n'; blank]?;
        let text = vec![in alloc; b'x'; bytes]?;
        script.extend_from_slice(&text)?;
        let (ended, out) = run_pieces(&rt, alloc, &script, 1 << 25)?;
        assert_eq!(rt; ended, Ended::BadLine { line, fault });
        assert_eq!(rt; out.bytes(), b"".as_slice());
    }
    Ok(())
}

#[test]
fn many_blank_lines(rt: HostRuntime) -> Result<(), Fail> {
    let script = vec![in rt.alloc(); b'\n'; 16_777_217]?;
    let (ended, out) = run_pieces(&rt, rt.alloc(), &script, 1 << 25)?;
    assert_eq!(rt; ended, Ended::Done);
    assert_eq!(rt; out.bytes(), b"".as_slice());
    Ok(())
}

#[test]
fn faults_end_the_run(rt: HostRuntime) -> Result<(), Fail> {
    let alloc = rt.alloc();
    let script = FOUR_POINTS.as_bytes();
    // Bytes of a read, the read that fails, and what is written: line 2 ends with the byte 49.
    for (piece, fails, wanted) in [(8, 3u64, ""), (1, 49, ""), (1, 50, "zone 7 ok\n")] {
        let mut input = MemSource::new(alloc, script, piece, [fails].as_slice())?;
        let mut out = MemSink::new(alloc, 100, 100, [].as_slice())?;
        let ended = run(&rt, alloc, &mut input, &mut out);
        assert_eq!(rt; ended, Ended::ReadFault);
        assert_eq!(rt; out.bytes(), wanted.as_bytes());
    }
    let mut input = MemSource::new(alloc, script, 100, [].as_slice())?;
    let mut out = MemSink::new(alloc, 100, 4, [2u64].as_slice())?;
    let ended = run(&rt, alloc, &mut input, &mut out);
    assert_eq!(rt; ended, Ended::WriteFault);
    assert_eq!(rt; out.bytes(), b"zone".as_slice());
    Ok(())
}

#[test]
fn sure_ends_take_all(rt: HostRuntime) -> Result<(), Fail> {
    let alloc = rt.alloc();
    let mut input = SureSource::new(alloc, FOUR_POINTS.as_bytes())?;
    let mut out = SureSink::new();
    assert_eq!(rt; run(&rt, alloc, &mut input, &mut out), Ended::Done);
    assert_eq!(rt; out.count(), FOUR_POINTS_TEXT.len() as u64);
    assert_eq!(rt; out.count(), 43);
    Ok(())
}

#[test]
fn a_long_answer_is_written_in_pieces(rt: HostRuntime) -> Result<(), Fail> {
    let alloc = rt.alloc();
    let mut script = Vec::new(alloc);
    script.extend_from_slice(b"zone,7,\"POLYGON((0 0,9 0,9 9,0 9,0 0))\"\nsync\n")?;
    for _ in 0..8000 {
        script.extend_from_slice(b"point,123456789,5,5\n")?;
    }
    let mut input = MemSource::new(alloc, &script, 100_000, [].as_slice())?;
    let mut out = MemSink::new(alloc, 100_000, 100_000, [].as_slice())?;
    assert_eq!(rt; run(&rt, alloc, &mut input, &mut out), Ended::Done);
    let head = "zone 7 ok\nbatch 1 after 1 points 8000\n".len();
    assert_eq!(rt; out.bytes().len(), head + 8000 * 12);
    // The third of the writes fails: the first has the line of the zone.
    let mut again = MemSource::new(alloc, &script, 100_000, [].as_slice())?;
    let mut broken = MemSink::new(alloc, 100_000, 100_000, [3u64].as_slice())?;
    let ended = run(&rt, alloc, &mut again, &mut broken);
    assert_eq!(rt; ended, Ended::WriteFault);
    assert!(rt; broken.bytes().len() >= 65_536);
    assert!(rt; broken.bytes().len() < 65_600);
    Ok(())
}

/// How many words of rows were read for each of three batches, in their order.
#[derive(Drop)]
struct Reads {
    batches: AtomicU64,
    reads: [AtomicU64; 3],
}

impl Gate for Reads {
    fn at(&self, _who: u32, place: Place, number: u64) {
        if place != Place::Probed {
            return;
        }
        let batch = self.batches.fetch_add(1, Ordering::SeqCst);
        if let Some(reads) = self.reads.get(batch as usize) {
            reads.store(number, Ordering::SeqCst);
        }
    }
}

/// The leaf of the point has level 12, then 13 and 14. There it is a true hit.
#[test]
fn index_is_used(rt: HostRuntime) -> Result<(), Fail> {
    let alloc = rt.alloc();
    let zone = "zone,7,\"POLYGON((0 0,1000000 0,1000000 1000000,0 1000000,0 0))\"\n";
    let five =
        "point,1,300000,300000\npoint,2,300000,300000\npoint,3,300000,300000\npoint,4,300000,300000\npoint,5,300000,300000\n";
    let script = format!(in alloc;
        "{zone}sync\n{five}sync\ntrain,5\n{five}sync\ntrain,5\nsync\n{five}"
    )?;
    let gate = Reads {
        batches: AtomicU64::new(0),
        reads: [AtomicU64::new(0), AtomicU64::new(0), AtomicU64::new(0)],
    };
    let mut input = SureSource::new(alloc, script.as_str().as_bytes())?;
    let mut out = SureSink::new();
    if let Some(settings) = Settings::new(0, 256, 1, 1) {
        assert_eq!(rt;
            engine(&rt, alloc, settings, &mut input, &mut out, &gate),
            Ended::Done
        );
    }
    for (reads, most) in gate.reads.iter().zip([50, 55, 25]) {
        let reads = reads.load(Ordering::SeqCst);
        assert!(rt; 5 <= reads && reads <= most);
    }
    Ok(())
}
