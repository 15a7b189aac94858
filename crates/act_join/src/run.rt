//! The run of a script's segments.

ghost use Rattle.std.specs.Prelude.{◌≡◌, ◌<◌, ◌≤◌, IfOk, OnOk};
ghost use Rattle.act_script.specs.Segments.{HaveThresholds};
ghost use Rattle.act_script.specs.Turns.{turns_of};
ghost use Rattle.act_join.specs.Kept.{after_segment};
ghost use Rattle.act_join.specs.Solved.{Solves};

use crate::fault::SegmentFault;
use crate::put::write_replies;
use crate::reply::Solved;
use crate::updating::Updating;
use act_grid::{NoMemory, Settings};
use act_index::Writer;
use act_io::{Gate, Sink};
use act_script::{Segment, Step};
use std::alloc::Global;
use std::collections::VecDeque;
use std::marker::{Brand, Model};
use std::sync::ledger::{Blank, Ledger};
use std::thread::Threads;

/// Runs the segments of a script one after another. Contracts see its settings, its state, how many entries its
/// history has and how many of them are updates, and the points that a training of the next segment has.
#[derive(Drop)]
pub struct Run {
    updating: Updating,
    // Replies that are not yet written. It is empty between segments, and keeps its room.
    text: Vec<u8>,
    alloc: Global,
}

impl Model for Run {
    ghost use Rattle.std.specs.Prelude.{◌≤◌, length};
    ghost use Rattle.act_join.specs.Kept.{Kept};
    ghost use Rattle.act_join.specs.Working.{held_by};

    ghost Value = { Kept };

    ghost view = { λ run. record { held = held_by run.updating.writer; points = run.updating.points.items } };

    ghost invariant = { λ run. length run.updating.points.items ≤ 65536 };
}

impl Run {
    ghost use Rattle.act_io.specs.Streams.{stream};
    ghost use Rattle.act_join.specs.Held.{Answers};
    ghost use Rattle.act_join.specs.Puts.{Writes};
    ghost use Rattle.act_join.specs.Replies.{replies_text};
    ghost use Rattle.act_join.specs.Kept.{nothing_kept};

    /// A run before the first segment: no zones stand. It takes the memory of all rows.
    pub fn new(alloc: Global, settings: Settings) -> Result<Run, NoMemory>
        ensures { IfOk result (λ run. run ≡ nothing_kept settings) }
    {
        let writer = Writer::new(alloc, settings, settings.workers)?;
        Ok(Run {
            updating: Updating {
                writer,
                settings,
                points: Vec::new(alloc),
                waiting: VecDeque::new(alloc),
                decided: VecDeque::new(alloc),
                counts: Vec::new(alloc),
            },
            text: Vec::new(alloc),
            alloc,
        })
    }

    // The steps are counted under the name that the caller picks.
    fn solve_as<T: Threads + Sync, G: Gate, L: Ledger + Send>(
        &mut self,
        rt: &T,
        steps: Vec<Step>,
        gate: &G,
        blank: Blank,
    ) -> Result<Solved, NoMemory>
        requires blank { (blank.name ≡ L.name) × (blank.parts ≡ L.parts) × (0 < L.parts) }
        requires thresholds { HaveThresholds steps.items }
        ensures solves { IfOk result (λ solved. Solves self.old.held (turns_of self.old.points steps.items) solved) }
        ensures kept { OnOk result (self.new ≡ after_segment self.old steps.items) }
    {
        self.updating
            .solve::<T, G, L>(rt, self.alloc, steps, gate, blank)
    }

    /// Does the steps of a segment, and gives the replies to them in the order of the script.
    ///
    /// Each batch is answered by a reader of the index, over the zones of one version between the start of the
    /// segment and its end. A batch of more than 8,192 points, which no segmenter gives, is answered as want of
    /// memory. A point with no id has the id 0. A training has the points of earlier segments, from that of the
    /// training before it on, of which at most 65,536 are kept. After `NoMemory` the run isn't used again.
    ///
    /// `rt` is for workers.
    pub fn solve<T: Threads + Sync, G: Gate>(
        &mut self,
        rt: &T,
        segment: Segment,
        gate: &G,
    ) -> Result<Solved, NoMemory>
        // No threshold is 0.
        requires { HaveThresholds segment }
        // Each step has its reply: an update its line and the key that it added, a batch the answer of a version, with
        // the number of updates at that version, which the segment has reached.
        ensures solves { IfOk result (λ solved. Solves self.old.held (turns_of self.old.points segment) solved) }
        // The updates were decided in their order, and the points of the batches are there for later samples.
        ensures kept { OnOk result (self.new ≡ after_segment self.old segment) }
    {
        self.solve_as::<T, G, Brand>(rt, segment.into_vec(), gate, Blank::new(1))
    }

    // The replies are written.
    fn write<K: Sink>(&mut self, solved: Solved, out: &mut K) -> Result<(), SegmentFault>
        ensures text { Writes (stream K.written K.faults out.old out.new) (replies_text solved) result }
        ensures later { OnOk result (K.faults out.old ≤ K.faults out.new) }
        ensures same { self.new ≡ self.old }
    {
        write_replies(out, &mut self.text, solved)
    }

    /// Solves a segment, and writes the replies in the order of the script.
    ///
    /// All answers of the segment are held until they are written; of their text there is at most one line more than
    /// 64 KiB at a time.
    pub fn segment<T: Threads + Sync, K: Sink, G: Gate>(
        &mut self,
        rt: &T,
        segment: Segment,
        out: &mut K,
        gate: &G,
    ) -> Result<(), SegmentFault>
        // No threshold is 0.
        requires { HaveThresholds segment }
        // At `Ok` the output got exactly the text of the segment for one list of fair counts, in whatever
        // history leads here. Else it got a front of such a text, and at `WriteFault` it has failed.
        ensures text { Answers self.old.held (turns_of self.old.points segment) (stream K.written K.faults out.old out.new) result }
        ensures later { OnOk result (K.faults out.old ≤ K.faults out.new) }
        // At `Ok` the updates of the segment were decided in their order, and the points of its batches are there for
        // later samples.
        ensures kept { OnOk result (self.new ≡ after_segment self.old segment) }
    {
        match self.solve(rt, segment, gate) {
            Ok(solved) => self.write(solved, out),
            Err(NoMemory) => Err(SegmentFault::NoMemory),
        }
    }
}
