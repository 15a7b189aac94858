//! A run of a script between two pieces of its bytes.

ghost use Rattle.std.specs.Prelude.{◌≡◌, ◌≤◌, ◌<◌, ◌+◌, ◌^◌, ℕ, drop, length, IfOk, IfSome, OnOk, Ok, Some};
ghost use Rattle.std.specs.Option.{option_to_list};
ghost use Rattle.act_io.specs.Streams.{stream};
ghost use Rattle.act_script.specs.Cutting.{turns};
ghost use Rattle.act_script.specs.Items.{item_of};
ghost use Rattle.act_script.specs.Segments.{HaveThresholds, ItemHasThreshold, closed_segment};
ghost use Rattle.act_join.specs.Feeds.{Closes, FeedsAll, FeedsPart, IsStart, IsWithin, Runs, TakesLast, TakesLine, cut_end, line_end};

use crate::ended::{Ended, ScriptFault};
use crate::fault::SegmentFault;
use crate::run::Run;
use act_grid::{NoMemory, Settings};
use act_io::{Gate, Sink};
use act_script::{CutFault, Cutter, Item, LineFault, Segment, Segmenter, read_line};
use std::alloc::Global;
use std::thread::Threads;

/// The line at hand, what is in no segment that is closed, and the segments that were run.
#[derive(Drop)]
pub(crate) struct Progress {
    pub(crate) cutter: Cutter,
    pub(crate) segmenter: Segmenter,
    pub(crate) run: Run,
}

/// How a run ends at a line with this number and fault.
fn end_at_line(number: u32, fault: LineFault) -> Ended
    ensures { result ≡ line_end number fault }
{
    match fault {
        LineFault::NoMemory => Ended::NoMemory,
        _ => Ended::BadLine {
            line: number,
            fault: ScriptFault::Line(fault),
        },
    }
}

/// How a run ends where no line was cut behind so many. The number of a line is at most 2^32-1.
fn end_at_cut(number: u32, fault: CutFault) -> Ended
    ensures { result ≡ cut_end number fault }
{
    match fault {
        CutFault::NoMemory => Ended::NoMemory,
        _ => Ended::BadLine {
            line: number.saturating_add(1),
            fault: ScriptFault::Cut(fault),
        },
    }
}

/// Runs the segment that was given, where one was.
fn run_given<T: Threads + Sync, K: Sink, G: Gate>(
    rt: &T,
    run: &mut Run,
    given: Option<Segment>,
    out: &mut K,
    gate: &G,
) -> Result<(), Ended>
    requires { IfSome given HaveThresholds }
    ensures runs { Runs run.old (option_to_list given) (stream K.written K.faults out.old out.new) run.new result }
    ensures later { OnOk result (K.faults out.old ≤ K.faults out.new) }
{
    let Some(segment) = given else {
        return Ok(());
    };
    match run.segment(rt, segment, out, gate) {
        Ok(()) => Ok(()),
        Err(SegmentFault::WriteFault) => Err(Ended::WriteFault),
        Err(SegmentFault::NoMemory) => Err(Ended::NoMemory),
    }
}

/// The bytes of a piece after so many.
fn after(piece: &[u8], used: usize) -> &[u8]
    requires { used ≤ length piece.now }
    ensures { result.now ≡ drop used piece.now }
{
    &piece[used..]
}

impl Progress {
    /// Before the first byte.
    pub(crate) fn new(alloc: Global, settings: Settings) -> Result<Progress, NoMemory>
        ensures { IfOk result (λ progress. IsStart settings progress) }
    {
        Ok(Progress {
            cutter: Cutter::new(alloc),
            segmenter: Segmenter::new(alloc),
            run: Run::new(alloc, settings)?,
        })
    }

    /// Takes an item, and runs the segment that it closes.
    fn take_item<T: Threads + Sync, K: Sink, G: Gate>(
        &mut self,
        rt: &T,
        item: Item,
        out: &mut K,
        gate: &G,
    ) -> Result<(), Ended>
        requires number { self.old.segmenter.number < 2 ^ 32 }
        requires threshold { ItemHasThreshold item }
        ensures cutter { self.new.cutter ≡ self.old.cutter }
        ensures number { OnOk result (self.new.segmenter.number ≤ self.old.segmenter.number + 1) }
        ensures takes { (n : ℕ) → TakesLine n (Ok (Some item)) self.old self.new (stream K.written K.faults out.old out.new) result }
        ensures later { OnOk result (K.faults out.old ≤ K.faults out.new) }
    {
        match self.segmenter.push(item) {
            Ok(given) => run_given(rt, &mut self.run, given, out, gate),
            Err(NoMemory) => Err(Ended::NoMemory),
        }
    }

    /// Takes the line that ended last.
    fn take_line<T: Threads + Sync, K: Sink, G: Gate>(
        &mut self,
        rt: &T,
        alloc: Global,
        digits: u8,
        out: &mut K,
        gate: &G,
    ) -> Result<(), Ended>
        requires digits { digits ≤ 9 }
        requires number { self.old.segmenter.number < 2 ^ 32 }
        ensures cutter { self.new.cutter ≡ self.old.cutter }
        ensures number { OnOk result (self.new.segmenter.number ≤ self.old.segmenter.number + 1) }
        ensures takes { TakesLine self.old.cutter.number (item_of digits self.old.cutter.line) self.old self.new (stream K.written K.faults out.old out.new) result }
        ensures later { OnOk result (K.faults out.old ≤ K.faults out.new) }
    {
        match read_line(alloc, self.cutter.line(), digits) {
            Ok(Some(item)) => self.take_item(rt, item, out, gate),
            Ok(None) => Ok(()),
            Err(fault) => Err(end_at_line(self.cutter.number(), fault)),
        }
    }
}

impl Progress {
    /// Takes bytes of a piece up to the end of the next line or of the piece, and says how many.
    fn feed_part<T: Threads + Sync, K: Sink, G: Gate>(
        &mut self,
        rt: &T,
        alloc: Global,
        digits: u8,
        piece: &[u8],
        out: &mut K,
        gate: &G,
    ) -> Result<usize, Ended>
        requires digits { digits ≤ 9 }
        requires within { IsWithin self.old }
        requires some { 0 < length piece.now }
        ensures within { OnOk result (IsWithin self.new) }
        ensures used { IfOk result (λ used. (0 < used) × (used ≤ length piece.now)) }
        ensures feeds { FeedsPart digits self.old piece.now self.new (stream K.written K.faults out.old out.new) result }
        ensures turns { IfOk result (λ used. turns self.new.cutter + used ≤ turns self.old.cutter) }
        ensures later { OnOk result (K.faults out.old ≤ K.faults out.new) }
    {
        let taken = match self.cutter.take(piece) {
            Ok(taken) => taken,
            Err(fault) => return Err(end_at_cut(self.cutter.number(), fault)),
        };
        if !taken.line {
            return Ok(taken.used);
        }
        match self.take_line(rt, alloc, digits, out, gate) {
            Ok(()) => Ok(taken.used),
            Err(end) => Err(end),
        }
    }

    /// Takes a piece of the script.
    pub(crate) fn feed<T: Threads + Sync, K: Sink, G: Gate>(
        &mut self,
        rt: &T,
        alloc: Global,
        digits: u8,
        piece: &[u8],
        out: &mut K,
        gate: &G,
    ) -> Result<(), Ended>
        requires digits { digits ≤ 9 }
        requires within { IsWithin self.old }
        ensures within { OnOk result (IsWithin self.new) }
        ensures feeds { FeedsAll digits self.old piece.now self.new (stream K.written K.faults out.old out.new) result }
        ensures turns { OnOk result (turns self.new.cutter + length piece.now ≤ turns self.old.cutter) }
        ensures later { OnOk result (K.faults out.old ≤ K.faults out.new) }
    {
        let mut rest = piece;
        while !rest.is_empty() {
            match self.feed_part(rt, alloc, digits, rest, out, gate) {
                Ok(used) => rest = after(rest, used),
                Err(end) => return Err(end),
            }
        }
        Ok(())
    }

    /// Takes the last line of the script, where its end leaves one.
    fn finish_line<T: Threads + Sync, K: Sink, G: Gate>(
        &mut self,
        rt: &T,
        alloc: Global,
        digits: u8,
        out: &mut K,
        gate: &G,
    ) -> Result<(), Ended>
        requires digits { digits ≤ 9 }
        requires within { IsWithin self.old }
        ensures takes { TakesLast digits self.old self.new (stream K.written K.faults out.old out.new) result }
        ensures later { OnOk result (K.faults out.old ≤ K.faults out.new) }
    {
        match self.cutter.finish() {
            Ok(true) => self.take_line(rt, alloc, digits, out, gate),
            Ok(false) => Ok(()),
            Err(fault) => Err(end_at_cut(self.cutter.number(), fault)),
        }
    }

    /// Runs the last segment, where there is one.
    fn close<T: Threads + Sync, K: Sink, G: Gate>(
        &mut self,
        rt: &T,
        out: &mut K,
        gate: &G,
    ) -> Result<(), Ended>
        ensures runs { Runs self.old.run (option_to_list (closed_segment self.old.segmenter)) (stream K.written K.faults out.old out.new) self.new.run result }
        ensures later { OnOk result (K.faults out.old ≤ K.faults out.new) }
    {
        match self.segmenter.finish() {
            Ok(last) => run_given(rt, &mut self.run, last, out, gate),
            Err(NoMemory) => Err(Ended::NoMemory),
        }
    }

    /// Takes the end of the script.
    pub(crate) fn finish<T: Threads + Sync, K: Sink, G: Gate>(
        &mut self,
        rt: &T,
        alloc: Global,
        digits: u8,
        out: &mut K,
        gate: &G,
    ) -> Result<(), Ended>
        requires digits { digits ≤ 9 }
        requires within { IsWithin self.old }
        ensures { Closes digits self.old (stream K.written K.faults out.old out.new) result }
    {
        match self.finish_line(rt, alloc, digits, out, gate) {
            Ok(()) => self.close(rt, out, gate),
            Err(end) => Err(end),
        }
    }
}
