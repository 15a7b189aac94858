//! Scripts that are cut in pieces of several sizes.

ghost use Rattle.std.specs.Prelude.{◌<◌};

use super::*;
use std::alloc::{AllocError, Global};
use std::test::Fail;

/// The lines of a script that comes in pieces of `size` bytes, each with a bar behind it, and the
/// fault at which it ends.
fn lines_in_pieces(
    alloc: Global,
    script: &[u8],
    size: usize,
) -> Result<(Vec<u8>, Option<CutFault>), AllocError>
    requires { 0 < size }
{
    let mut cutter = Cutter::new(alloc);
    let mut lines = Vec::new(alloc);
    for piece in script.chunks(size) {
        let mut rest = piece;
        while !rest.is_empty() {
            match cutter.take(rest) {
                Ok(taken) => {
                    if taken.line {
                        lines.extend_from_slice(cutter.line())?;
                        lines.push(b'|')?;
                    }
                    rest = &rest[taken.used..];
                }
                Err(fault) => return Ok((lines, Some(fault))),
            }
        }
    }
    match cutter.finish() {
        Ok(true) => {
            lines.extend_from_slice(cutter.line())?;
            lines.push(b'|')?;
            Ok((lines, None))
        }
        Ok(false) => Ok((lines, None)),
        Err(fault) => Ok((lines, Some(fault))),
    }
}

#[test]
fn lines(rt: HostRuntime) -> Result<(), Fail> {
    let alloc = rt.alloc();
    let cases: [(&[u8], &[u8]); 14] = [
        (b"", b""),
        (b"point,1,0,0\r\n\nsync", b"point,1,0,0||sync|"),
        (b"\n", b"|"),
        (b"\n\n", b"||"),
        (b"a\nb\n", b"a|b|"),
        (b"a\r\nb\r", b"a|b|"),
        (b"a\r\r\n", b"a\r|"),
        (b"syn\rc", b"syn\rc|"),
        (b"\r\n\r", b"||"),
        (b"\xEF\xBB\xBFbatch\nsync", b"batch|sync|"),
        (b"\xEF\xBB\xBF", b""),
        (b"\xEF\xBB\xBF\n\xEF\xBB\xBFsync", b"|\xEF\xBB\xBFsync|"),
        (b"\xEF\xBB\xBF\xEF\xBB\xBFsync", b"\xEF\xBB\xBFsync|"),
        (b"\xEF\xBBsync", b"\xEF\xBBsync|"),
    ];
    for (script, lines) in &cases {
        for size in [1, 2, 3, 5, 4096] {
            let (cut, fault) = lines_in_pieces(alloc, script, size)?;
            assert_eq!(rt; fault, None);
            assert_eq!(rt; cut.as_slice(), *lines);
        }
    }
    Ok(())
}

#[test]
fn longest_line(rt: HostRuntime) -> Result<(), Fail> {
    let alloc = rt.alloc();
    for (bytes, fault) in [
        (MOST_BYTES, None),
        (MOST_BYTES + 1, Some(CutFault::LineLong)),
    ] {
        let script = vec![in alloc; b'x'; bytes]?;
        for size in [4096, 65_536, 1 << 25] {
            let (lines, end) = lines_in_pieces(alloc, &script, size)?;
            assert_eq!(rt; end, fault);
            let wanted = if fault.is_none() { bytes + 1 } else { 0 };
            assert_eq!(rt; lines.len(), wanted);
        }
    }
    Ok(())
}

#[test]
fn mark_before_longest_line(rt: HostRuntime) -> Result<(), Fail> {
    let alloc = rt.alloc();
    let mut script = vec![in alloc; b'x'; MOST_BYTES]?;
    script.insert(0, 0xBF)?;
    script.insert(0, 0xBB)?;
    script.insert(0, 0xEF)?;
    let (lines, fault) = lines_in_pieces(alloc, &script, 65_536)?;
    assert_eq!(rt; fault, None);
    assert_eq!(rt; lines.len(), MOST_BYTES + 1);
    script.push(b'x')?;
    let (lines, fault) = lines_in_pieces(alloc, &script, 65_536)?;
    assert_eq!(rt; fault, Some(CutFault::LineLong));
    assert_eq!(rt; lines.len(), 0);
    Ok(())
}

#[test]
fn carriage_return_counts(rt: HostRuntime) -> Result<(), Fail> {
    let alloc = rt.alloc();
    let mut script = vec![in alloc; b'x'; MOST_BYTES]?;
    script.push(b'\r')?;
    script.push(b'\n')?;
    let (lines, fault) = lines_in_pieces(alloc, &script, 65_536)?;
    assert_eq!(rt; fault, Some(CutFault::LineLong));
    assert_eq!(rt; lines.len(), 0);
    Ok(())
}

#[test]
fn many_blank_lines(rt: HostRuntime) -> Result<(), Fail> {
    let mut cutter = Cutter::new(rt.alloc());
    for _ in 0..16_777_217 {
        let taken = cutter.take(b"\n").or(Err("a blank line was refused"))?;
        assert!(rt; taken.line);
    }
    assert_eq!(rt; cutter.number(), 16_777_217);
    assert_eq!(rt; cutter.finish(), Ok(false));
    Ok(())
}

#[test]
fn same_fault_ever_after(rt: HostRuntime) -> Result<(), Fail> {
    let alloc = rt.alloc();
    let mut cutter = Cutter::new(alloc);
    let long = vec![in alloc; b'x'; MOST_BYTES + 1]?;
    assert_eq!(rt; cutter.take(&long), Err(CutFault::LineLong));
    assert_eq!(rt; cutter.take(b"sync\n"), Err(CutFault::LineLong));
    assert_eq!(rt; cutter.finish(), Err(CutFault::LineLong));
    assert_eq!(rt; cutter.number(), 0);
    Ok(())
}
