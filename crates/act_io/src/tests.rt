//! Each public call once, with memory enough.

ghost use Rattle.std.specs.Prelude.{◌<◌};

use crate::{
    Failed, Gate, MemSink, MemSource, NoGate, Place, Sink, Source, StdSink, StdSource, SureSink,
    SureSource, put_all,
};
use std::alloc::Global;
use std::test::Fail;

/// What three reads into a buffer of four bytes give, with a mark where one failed.
fn three_reads<S: Source>(alloc: Global, source: &mut S) -> Result<Vec<u8>, Fail> {
    let mut got = Vec::new(alloc);
    for _ in 0..3 {
        let mut buf = [0; 4];
        match source.read(&mut buf) {
            Ok(n) => got.extend_from_slice(&buf[..n])?,
            Err(Failed) => got.push(b'!')?,
        }
        got.push(b'/')?;
    }
    Ok(got)
}

#[test]
fn sources_give_their_bytes(rt: HostRuntime) -> Result<(), Fail> {
    let alloc = rt.alloc();
    let bytes = b"seven b".as_slice();
    let mut sure = SureSource::new(alloc, bytes)?;
    assert_eq!(rt;
        three_reads(alloc, &mut sure)?.as_slice(),
        b"seve/n b//".as_slice()
    );
    let mut std = StdSource::new(bytes);
    assert_eq!(rt;
        three_reads(alloc, &mut std)?.as_slice(),
        b"seve/n b//".as_slice()
    );
    let mut pieces = MemSource::new(alloc, bytes, 3, [].as_slice())?;
    assert_eq!(rt;
        three_reads(alloc, &mut pieces)?.as_slice(),
        b"sev/en /b/".as_slice()
    );
    let mut faulty = MemSource::new(alloc, bytes, 8, [2u64].as_slice())?;
    assert_eq!(rt;
        three_reads(alloc, &mut faulty)?.as_slice(),
        b"seve/!/n b/".as_slice()
    );
    Ok(())
}

#[test]
fn sinks_in_memory_take_a_text(rt: HostRuntime) -> Result<(), Fail> {
    let alloc = rt.alloc();
    let text = b"zone 7 ok\n".as_slice();
    let mut whole = MemSink::new(alloc, 10, 4, [4u64].as_slice())?;
    assert_eq!(rt; put_all(&mut whole, text), Ok(()));
    assert_eq!(rt; whole.bytes(), text);
    let mut full = MemSink::new(alloc, 9, 4, [].as_slice())?;
    assert_eq!(rt; put_all(&mut full, text), Err(Failed));
    assert_eq!(rt; full.bytes(), b"zone 7 ok".as_slice());
    let mut faulty = MemSink::new(alloc, 10, 4, [2u64].as_slice())?;
    assert_eq!(rt; put_all(&mut faulty, text), Err(Failed));
    assert_eq!(rt; faulty.bytes(), b"zone".as_slice());
    Ok(())
}

#[test]
fn other_sinks_take_a_text(rt: HostRuntime) -> Result<(), Fail> {
    let text = b"zone 7 ok\n".as_slice();
    let mut sure = SureSink::new();
    assert_eq!(rt; put_all(&mut sure, text), Ok(()));
    assert_eq!(rt; sure.count(), 10);
    let mut kept = Vec::new(rt.alloc());
    let mut std = StdSink::new(&mut kept);
    assert_eq!(rt; put_all(&mut std, text), Ok(()));
    assert_eq!(rt; kept.as_slice(), text);
    let mut room = [0u8; 4];
    let mut short = StdSink::new(room.as_mut_slice());
    assert_eq!(rt; put_all(&mut short, text), Err(Failed));
    assert_eq!(rt; room.as_slice(), b"zone".as_slice());
    Ok(())
}

/// Calls a gate at each place.
fn pass<G: Gate>(gate: &G) {
    for place in [Place::Ready, Place::Published, Place::Bound, Place::Probed] {
        gate.at(0, place, 1);
    }
}

#[test]
fn no_gate_lets_pass() {
    pass(&NoGate);
}
