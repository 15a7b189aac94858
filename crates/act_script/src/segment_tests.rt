//! Scripts with their segments, digits 0.

ghost use Rattle.std.specs.Prelude.{◌≤◌, ◌<◌, ◌+◌, ◌^◌, OnOk, length};
ghost use Rattle.act_script.specs.Cutting.{IsOpen};
ghost use Rattle.act_script.specs.declared.cutter.TheConstants.{MOST_BYTES};

use super::*;
use std::alloc::{AllocError, Global};
use std::test::Fail;

/// Why a script was not read to its end.
#[derive(Debug, Drop)]
enum Stop {
    Cut(CutFault),
    Line(LineFault),
    Memory,
}

/// A batch as a text: its number, its ids, and how many layers it has.
fn push_batch(alloc: Global, text: &mut String, batch: &Batch) -> Result<(), AllocError> {
    text.push_str(format!(in alloc; " batch {} of", batch.number)?.as_str())?;
    let ids = batch.ids.as_slice();
    if ids.len() > 9 {
        text.push_str(format!(in alloc; " {} points", ids.len())?.as_str())?;
    } else {
        for id in ids {
            text.push_str(format!(in alloc; " {id}")?.as_str())?;
        }
    }
    let mut layers: u32 = 0;
    for layer in 0..256u32 {
        if batch.layers.has(layer << 24) {
            layers = layers.saturating_add(1);
        }
    }
    text.push_str(format!(in alloc; " in {layers}")?.as_str())
}

/// A segment as a text.
fn push_segment(alloc: Global, text: &mut String, segment: &Segment) -> Result<(), AllocError> {
    text.push('{')?;
    let steps = segment.as_slice();
    if steps.len() > 99 {
        text.push_str(format!(in alloc; " {} steps", steps.len())?.as_str())?;
    } else {
        for step in steps {
            match step {
                Step::Update(Update::Add { key, .. }) => {
                    text.push_str(format!(in alloc; " add {key}")?.as_str())?
                }
                Step::Update(Update::DropZone { key }) => {
                    text.push_str(format!(in alloc; " drop {key}")?.as_str())?
                }
                Step::Update(Update::Replace { key, .. }) => {
                    text.push_str(format!(in alloc; " replace {key}")?.as_str())?
                }
                Step::Update(Update::Train { threshold }) => {
                    text.push_str(format!(in alloc; " train {threshold}")?.as_str())?
                }
                Step::Batch(batch) => push_batch(alloc, text, batch)?,
            }
        }
    }
    text.push_str(" }")
}

/// Takes one line of a script.
fn take_line(
    alloc: Global,
    segmenter: &mut Segmenter,
    line: &[u8],
    text: &mut String,
) -> Result<(), Stop>
    requires number { segmenter.old.number < 2 ^ 32 }
    requires short { length line.now ≤ MOST_BYTES }
    requires one { IsOpen line.now }
    ensures { OnOk result (segmenter.new.number ≤ segmenter.old.number + 1) }
{
    let item = match read_line(alloc, line, 0) {
        Ok(Some(item)) => item,
        Ok(None) => return Ok(()),
        Err(fault) => return Err(Stop::Line(fault)),
    };
    match segmenter.push(item) {
        Ok(Some(segment)) => push_segment(alloc, text, &segment).or(Err(Stop::Memory)),
        Ok(None) => Ok(()),
        Err(_) => Err(Stop::Memory),
    }
}

/// Takes a script in pieces of `size` bytes, up to its first bad line.
fn take_script(
    alloc: Global,
    segmenter: &mut Segmenter,
    script: &[u8],
    size: usize,
    text: &mut String,
) -> Result<(), Stop>
    requires size { 0 < size }
    requires first { segmenter.old.number ≤ 0 }
{
    let mut cutter = Cutter::new(alloc);
    for piece in script.chunks(size) {
        let mut rest = piece;
        while !rest.is_empty() {
            match cutter.take(rest) {
                Ok(taken) => {
                    if taken.line {
                        take_line(alloc, segmenter, cutter.line(), text)?;
                    }
                    rest = &rest[taken.used..];
                }
                Err(fault) => return Err(Stop::Cut(fault)),
            }
        }
    }
    match cutter.finish() {
        Ok(true) => take_line(alloc, segmenter, cutter.line(), text),
        Ok(false) => Ok(()),
        Err(fault) => Err(Stop::Cut(fault)),
    }
}

/// The segments of a script as a text, with the fault at which it ends.
fn segments_in(alloc: Global, script: &[u8], size: usize) -> Result<String, AllocError>
    requires { 0 < size }
{
    let mut text = String::new(alloc);
    let mut segmenter = Segmenter::new(alloc);
    match take_script(alloc, &mut segmenter, script, size, &mut text) {
        Ok(()) => match segmenter.finish() {
            Ok(Some(segment)) => push_segment(alloc, &mut text, &segment)?,
            Ok(None) => {}
            Err(_) => text.push_str("no memory")?,
        },
        Err(Stop::Line(fault)) => text.push_str(format!(in alloc; "{fault:?}")?.as_str())?,
        Err(Stop::Cut(fault)) => text.push_str(format!(in alloc; "{fault:?}")?.as_str())?,
        Err(Stop::Memory) => text.push_str("no memory")?,
    }
    Ok(text)
}

#[test]
fn segments(rt: HostRuntime) -> Result<(), Fail> {
    let alloc = rt.alloc();
    let cases: [(&[u8], &str); 13] = [
        (b"", ""),
        (b"\n \n", ""),
        (b"sync\nsync", ""),
        (b"batch\nlayers,1\nbatch", ""),
        (
            b"drop,7\nsync\npoint,1,0,0",
            "{ drop 7 }{ batch 1 of 1 in 256 }",
        ),
        (
            b"point,1,0,0\ndrop,7\npoint,2,0,0\nbatch\ndrop,8",
            "{ drop 7 batch 1 of 1 2 in 256 drop 8 }",
        ),
        (
            b"point,1,0,0\ndrop,7\nsync",
            "{ drop 7 batch 1 of 1 in 256 }",
        ),
        (
            b"zone,7,\"POLYGON EMPTY\"\nreplace,7,\"POLYGON EMPTY\"\nsync\npoint,1,5,5\nlayers,1\npoint,2,5,5\nlayers,2;5\npoint,3,5,5\nlayers,*\nlayers,0\npoint,4,5,5",
            "{ add 7 replace 7 }{ batch 1 of 1 in 256 batch 2 of 2 in 1 batch 3 of 3 in 2 batch 4 of 4 in 1 }",
        ),
        (
            b"layers,1\nsync\npoint,1,0,0\nsync\npoint,2,0,0",
            "{ batch 1 of 1 in 1 }{ batch 2 of 2 in 1 }",
        ),
        (
            b"point,1,0,0\ntrain,5\nbatch\ntrain,5\nsync\ntrain,7\nsync",
            "{ train 5 batch 1 of 1 in 256 train 5 }{ train 7 }",
        ),
        (b"train,1\nsync\ntrain,0", "{ train 1 }Threshold"),
        (b"drop,1\nsync\ndrop,2\nnone\nsync", "{ drop 1 }Kind"),
        (b"drop,1\nsync\ndrop,2\r\n\rsync", "{ drop 1 }Fields"),
    ];
    for (script, wanted) in &cases {
        for size in [1, 7, 4096] {
            assert_eq!(rt; segments_in(alloc, script, size)?.as_str(), *wanted);
        }
    }
    Ok(())
}

/// A line many times.
fn repeated(alloc: Global, line: &[u8], times: u32) -> Result<Vec<u8>, AllocError> {
    let mut script = Vec::new(alloc);
    for _ in 0..times {
        script.extend_from_slice(line)?;
    }
    Ok(script)
}

#[test]
fn greatest_batch(rt: HostRuntime) -> Result<(), Fail> {
    let alloc = rt.alloc();
    let script = repeated(alloc, b"point,1,0,0\n", 8193)?;
    let wanted = "{ batch 1 of 8192 points in 256 batch 2 of 1 in 256 }";
    assert_eq!(rt; segments_in(alloc, &script, 4096)?.as_str(), wanted);
    Ok(())
}

#[test]
fn most_batches(rt: HostRuntime) -> Result<(), Fail> {
    let alloc = rt.alloc();
    let mut script = repeated(alloc, b"point,1,0,0\nbatch\n", 63)?;
    script.extend_from_slice(b"drop,1\ndrop,2\n")?;
    for _ in 0..60 {
        script.extend_from_slice(b"drop,3\n")?;
    }
    script.extend_from_slice(b"point,2,0,0\nbatch\npoint,3,0,0\n")?;
    let wanted = "{ 126 steps }{ batch 65 of 3 in 256 }";
    assert_eq!(rt; segments_in(alloc, &script, 4096)?.as_str(), wanted);
    Ok(())
}

#[test]
fn most_updates(rt: HostRuntime) -> Result<(), Fail> {
    let alloc = rt.alloc();
    let mut script = repeated(alloc, b"drop,1\n", 4095)?;
    script.extend_from_slice(b"point,1,0,0\ntrain,2\npoint,2,0,0\n")?;
    let wanted = "{ 4097 steps }{ batch 2 of 2 in 256 }";
    assert_eq!(rt; segments_in(alloc, &script, 4096)?.as_str(), wanted);
    Ok(())
}

#[test]
fn most_vertices(rt: HostRuntime) -> Result<(), Fail> {
    let alloc = rt.alloc();
    let mut line = Vec::new(alloc);
    line.extend_from_slice(b"zone,1,\"POLYGON((0 0,0 1")?;
    for _ in 0..262_141 {
        line.extend_from_slice(b",1 1")?;
    }
    line.extend_from_slice(b",0 0))\"\n")?;
    let mut script = repeated(alloc, &line, 4)?;
    script.extend_from_slice(b"replace,2,\"POLYGON((0 0,1 0,1 1,0 1,0 0))\"\ndrop,3\n")?;
    let wanted = "{ add 1 add 1 add 1 add 1 replace 2 }{ drop 3 }";
    assert_eq!(rt; segments_in(alloc, &script, 65_536)?.as_str(), wanted);
    Ok(())
}
