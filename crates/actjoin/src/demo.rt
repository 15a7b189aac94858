//! The demo: a script that is made here, and a summary of the replies to it.

ghost use Rattle.std.specs.Prelude.{◌≡◌, ◌≤◌, ◌<◌, ◌+◌, ◌^◌, [], ◌∷◌, IfOk, IfSome, OnOk};
ghost use Rattle.act_io.specs.Streams.{stream};
ghost use Rattle.act_script.specs.Segments.{HaveThresholds, ItemHasThreshold};
ghost use Rattle.actjoin.specs.Demo.{demo_sums, drops, points, zones};
ghost use Rattle.actjoin.specs.Ends.{ShowsDemo};
ghost use Rattle.actjoin.specs.Showing.{Finishes, IsFirst, Leads, ShowsAll, Solves};

use crate::items::{drop_odd, point, zone};
use crate::summary::put_sums;
use crate::sums::Sums;
use act_grid::{NoMemory, Settings};
use act_io::{Failed, Gate, Sink};
use act_join::{Run, SegmentFault};
use act_script::{Item, Segment, Segmenter};
use std::alloc::Global;
use std::thread::Threads;

/// A demo between two of its items: those that are in no segment yet, the run of the segments, and the sums over
/// the replies to them.
#[derive(Drop)]
pub struct Showing {
    segmenter: Segmenter,
    run: Run,
    sums: Sums,
}

impl Showing {
    /// Before the first item.
    fn new(alloc: Global, settings: Settings) -> Result<Showing, NoMemory>
        ensures { IfOk result (λ showing. IsFirst settings showing) }
    {
        Ok(Showing {
            segmenter: Segmenter::new(alloc),
            run: Run::new(alloc, settings)?,
            sums: Sums::new(),
        })
    }

    /// Solves a segment, where one was given, and adds the replies to the sums.
    fn solve<T: Threads + Sync, G: Gate>(
        &mut self,
        rt: &T,
        given: Option<Segment>,
        gate: &G,
    ) -> Result<(), NoMemory>
        requires { IfSome given HaveThresholds }
        ensures segmenter { self.new.segmenter ≡ self.old.segmenter }
        ensures solves { OnOk result (Solves self.old given self.new) }
    {
        let Some(segment) = given else {
            return Ok(());
        };
        let solved = self.run.solve(rt, segment, gate)?;
        self.sums = self.sums.with_replies(solved.as_slice()).ok_or(NoMemory)?;
        Ok(())
    }

    /// Takes an item, and solves the segment that it closes.
    fn take<T: Threads + Sync, G: Gate>(
        &mut self,
        rt: &T,
        item: Item,
        gate: &G,
    ) -> Result<(), NoMemory>
        requires number { self.old.segmenter.number < 2 ^ 32 }
        requires threshold { ItemHasThreshold item }
        ensures number { OnOk result (self.new.segmenter.number ≤ self.old.segmenter.number + 1) }
        ensures leads { OnOk result (Leads self.old (item ∷ []) self.new) }
    {
        let given = self.segmenter.push(item)?;
        self.solve(rt, given, gate)
    }

    /// Takes the zones.
    fn zones<T: Threads + Sync, G: Gate>(
        &mut self,
        rt: &T,
        alloc: Global,
        side: u32,
        gate: &G,
    ) -> Result<(), NoMemory>
        requires side { (1 ≤ side) × (side ≤ 16) }
        requires number { self.old.segmenter.number ≤ 1000000 }
        ensures number { OnOk result (self.new.segmenter.number ≤ self.old.segmenter.number + 256) }
        ensures leads { OnOk result (Leads self.old (zones side) self.new) }
    {
        for key in 0..side * side {
            self.take(rt, zone(alloc, side, key)?, gate)?;
        }
        Ok(())
    }

    /// Takes the points, of which each zone has 400.
    fn points<T: Threads + Sync, G: Gate>(
        &mut self,
        rt: &T,
        side: u32,
        gate: &G,
    ) -> Result<(), NoMemory>
        requires side { (1 ≤ side) × (side ≤ 16) }
        requires number { self.old.segmenter.number ≤ 1000000 }
        ensures number { OnOk result (self.new.segmenter.number ≤ self.old.segmenter.number + 102400) }
        ensures leads { OnOk result (Leads self.old (points side) self.new) }
    {
        for id in 0..400 * side * side {
            self.take(rt, point(side, id), gate)?;
        }
        Ok(())
    }

    /// Takes the drops of the zones with odd keys.
    fn drops<T: Threads + Sync, G: Gate>(
        &mut self,
        rt: &T,
        side: u32,
        gate: &G,
    ) -> Result<(), NoMemory>
        requires side { (1 ≤ side) × (side ≤ 16) }
        requires number { self.old.segmenter.number ≤ 1000000 }
        ensures number { OnOk result (self.new.segmenter.number ≤ self.old.segmenter.number + 128) }
        ensures leads { OnOk result (Leads self.old (drops side) self.new) }
    {
        for place in 0..side * side / 2 {
            self.take(rt, drop_odd(place), gate)?;
        }
        Ok(())
    }

    /// Takes the end of the items, and solves the last segment.
    fn finish<T: Threads + Sync, G: Gate>(&mut self, rt: &T, gate: &G) -> Result<(), NoMemory>
        ensures { OnOk result (Finishes self.old self.new) }
    {
        let last = self.segmenter.finish()?;
        self.solve(rt, last, gate)
    }

    /// Takes all items of the demo, and their end.
    fn run<T: Threads + Sync, G: Gate>(
        &mut self,
        rt: &T,
        alloc: Global,
        side: u32,
        gate: &G,
    ) -> Result<(), NoMemory>
        requires side { (1 ≤ side) × (side ≤ 16) }
        requires number { self.old.segmenter.number ≤ 1000 }
        ensures { OnOk result (ShowsAll side self.old self.new) }
    {
        self.zones(rt, alloc, side, gate)?;
        self.take(rt, Item::Sync, gate)?;
        self.points(rt, side, gate)?;
        self.take(rt, Item::Sync, gate)?;
        self.take(rt, Item::Train { threshold: 64 }, gate)?;
        self.drops(rt, side, gate)?;
        self.take(rt, Item::Sync, gate)?;
        self.points(rt, side, gate)?;
        self.finish(rt, gate)
    }
}

/// The sums over the replies to the demo with so many zones a side.
fn sums<T: Threads + Sync, G: Gate>(
    rt: &T,
    alloc: Global,
    side: u32,
    settings: Settings,
    gate: &G,
) -> Result<Sums, NoMemory>
    requires { (1 ≤ side) × (side ≤ 16) }
    ensures { IfOk result (λ sums. sums ≡ demo_sums side settings) }
{
    let mut showing = Showing::new(alloc, settings)?;
    showing.run(rt, alloc, side, gate)?;
    Ok(showing.sums)
}

/// Runs the demo with so many zones a side, and writes its summary. It reads nothing.
///
/// The items are made one at a time, and the replies to one segment are held at a time. A sum past 2^64-1, which no
/// demo has, is answered as want of memory.
pub fn demo<T: Threads + Sync, K: Sink, G: Gate>(
    rt: &T,
    alloc: Global,
    side: u8,
    settings: Settings,
    out: &mut K,
    gate: &G,
) -> Result<(), SegmentFault>
    requires { (1 ≤ side) × (side ≤ 16) }
    ensures { ShowsDemo side settings (stream K.written K.faults out.old out.new) result }
{
    let sums = sums(rt, alloc, side as u32, settings, gate)?;
    match put_sums(out, sums) {
        Ok(()) => Ok(()),
        Err(Failed) => Err(SegmentFault::WriteFault),
    }
}
