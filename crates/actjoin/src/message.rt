//! The messages on the error output.

ghost use Rattle.std.specs.Prelude.{◌≡◌, ◌++◌, codes, decimal};
ghost use Rattle.act_io.specs.Streams.{GetsOrFails, stream};
ghost use Rattle.act_join.specs.Ends.{bad_of, fault_of};
ghost use Rattle.actjoin.specs.Ends.{PutsOrFails, message_of};
ghost use Rattle.actjoin.specs.Faults.{bad_line_text, cut_fault_text, fault_text, line_fault_text, wkt_name};

use crate::ending::Ending;
use crate::put::{put, put_both, put_numbered};
use act_io::{Failed, Sink, put_all};
use act_join::{Ended, ScriptFault, SegmentFault};
use act_script::{CutFault, LineFault};
use act_wkt::WktKind;

/// The name of what is wrong with a polygon's text.
fn wkt_name(kind: WktKind) -> &'static [u8]
    ensures { result.now ≡ wkt_name kind }
{
    match kind {
        WktKind::Keyword => b"keyword",
        WktKind::Dimension => b"dimension",
        WktKind::OtherType => b"other type",
        WktKind::NoOpen => b"no open",
        WktKind::NoClose => b"no close",
        WktKind::Number => b"number",
        WktKind::Range => b"range",
        WktKind::TooFew => b"too few points",
        WktKind::NotClosed => b"not closed",
        WktKind::Trailing => b"trailing",
        WktKind::Vertices => b"too many points",
    }
}

/// Writes what is wrong with a polygon's text, and where.
fn put_wkt_fault<K: Sink>(out: &mut K, kind: WktKind, place: u32) -> Result<(), Failed>
    ensures { PutsOrFails (stream K.written K.faults out.old out.new) (codes "wkt " ++ wkt_name kind ++ (codes " at " ++ decimal place)) result }
{
    put_both(out, b"wkt ", wkt_name(kind))?;
    put_numbered(out, b" at ", place as u64)
}

/// Writes why a line says nothing.
fn put_line_fault<K: Sink>(out: &mut K, fault: LineFault) -> Result<(), Failed>
    ensures { PutsOrFails (stream K.written K.faults out.old out.new) (line_fault_text fault) result }
{
    match fault {
        LineFault::Kind => put(out, b"unknown record"),
        LineFault::Fields => put(out, b"wrong fields"),
        LineFault::Key => put(out, b"bad key"),
        LineFault::PointId => put(out, b"bad point id"),
        LineFault::Threshold => put(out, b"bad threshold"),
        LineFault::Number => put(out, b"bad number"),
        LineFault::Range => put(out, b"number out of range"),
        LineFault::Wkt { kind, place } => put_wkt_fault(out, kind, place),
        LineFault::Layers => put(out, b"bad layers"),
        LineFault::NoMemory => put(out, b"out of memory"),
    }
}

/// Writes why a line was not cut.
fn put_cut_fault<K: Sink>(out: &mut K, fault: CutFault) -> Result<(), Failed>
    ensures { PutsOrFails (stream K.written K.faults out.old out.new) (cut_fault_text fault) result }
{
    match fault {
        CutFault::LineLong => put(out, b"line too long"),
        CutFault::Lines => put(out, b"too many lines"),
        CutFault::NoMemory => put(out, b"out of memory"),
    }
}

/// Writes why a line is bad.
fn put_fault<K: Sink>(out: &mut K, fault: ScriptFault) -> Result<(), Failed>
    ensures { PutsOrFails (stream K.written K.faults out.old out.new) (fault_text (fault_of fault)) result }
{
    match fault {
        ScriptFault::Line(fault) => put_line_fault(out, fault),
        ScriptFault::Cut(fault) => put_cut_fault(out, fault),
    }
}

/// Writes the text on a bad line.
fn put_bad_line<K: Sink>(out: &mut K, line: u32, fault: ScriptFault) -> Result<(), Failed>
    ensures { PutsOrFails (stream K.written K.faults out.old out.new) (bad_line_text (bad_of line fault)) result }
{
    put_numbered(out, b"line ", line as u64)?;
    put(out, b": ")?;
    put_fault(out, fault)?;
    put(out, b"\n")
}

/// Writes a text to the error output. A failure there changes nothing.
fn say<E: Sink>(err: &mut E, text: &[u8])
    ensures { GetsOrFails (stream E.written E.faults err.old err.new) text.now }
{
    let _ = put_all(err, text);
}

/// Says on the error output how the run of a script ended.
fn tell_run<E: Sink>(ended: Ended, err: &mut E)
    ensures { GetsOrFails (stream E.written E.faults err.old err.new) (message_of (Ending.Run ended)) }
{
    match ended {
        Ended::Done => {}
        Ended::BadLine { line, fault } => {
            let _ = put_bad_line(err, line, fault);
        }
        Ended::ReadFault => say(err, b"read fault\n"),
        Ended::WriteFault => say(err, b"write fault\n"),
        Ended::NoMemory => say(err, b"out of memory\n"),
    }
}

/// Says on the error output why the summary of the demo was not written whole.
fn tell_demo<E: Sink>(fault: SegmentFault, err: &mut E)
    ensures { GetsOrFails (stream E.written E.faults err.old err.new) (message_of (Ending.Unshown fault)) }
{
    match fault {
        SegmentFault::WriteFault => say(err, b"write fault\n"),
        SegmentFault::NoMemory => say(err, b"out of memory\n"),
    }
}

/// Says on the error output how the run ended. A failure there changes nothing.
///
/// It takes no memory: the text on a bad line is written in pieces.
pub fn tell<E: Sink>(ending: Ending, err: &mut E)
    ensures { GetsOrFails (stream E.written E.faults err.old err.new) (message_of ending) }
{
    match ending {
        Ending::Usage => say(
            err,
            b"usage: actjoin join [--digits D] [--rows R] [--cells C] [--workers W] | demo N [--rows R] [--cells C] [--workers W]\n",
        ),
        Ending::Unread => say(err, b"out of memory\n"),
        Ending::Run(ended) => tell_run(ended, err),
        Ending::Shown => {}
        Ending::Unshown(fault) => tell_demo(fault, err),
    }
}
