//! The updates of a segment, decided one after another.

ghost use Rattle.std.specs.Prelude.{◌≡◌, ◌≤◌, ◌++◌, [], ◌∷◌, IfOk, OnOk, length, true, List};
ghost use Rattle.std.specs.List.{AllByRecursion};
ghost use Rattle.act_grid.specs.declared.Point.{Point as Spot};
ghost use Rattle.act_index.specs.Codes.{updates_in};
ghost use Rattle.act_index.specs.Whole.{Writing};
ghost use Rattle.act_rows.specs.History.{Begins};
ghost use Rattle.act_rows.specs.Versions.{newest};
ghost use Rattle.act_script.specs.Segments.{HasThreshold};
ghost use Rattle.act_script.specs.declared.segment.Update.{Update as Asked};
ghost use Rattle.act_join.specs.Working.{IsAlong, Steps as StepsOf, counted};

use crate::decide::{Decided, Stepped, decide};
use act_base::Steps;
use act_grid::{NoMemory, Point, Settings};
use act_index::Writer;
use act_io::Gate;
use act_script::Update;
use std::alloc::Global;
use std::collections::VecDeque;
use std::sync::ledger::Ledger;

/// The writer, the points that are there for a sample, and the updates of a segment. Its lists keep their room from
/// segment to segment.
#[derive(Drop)]
pub(crate) struct Updating {
    pub(crate) writer: Writer,
    pub(crate) settings: Settings,
    pub(crate) points: Vec<Point>,
    // The updates that are not decided yet, and the answers to the others.
    pub(crate) waiting: VecDeque<Update>,
    pub(crate) decided: VecDeque<Decided>,
    // How many updates the history has at the version before the segment, at the next version, and so on.
    pub(crate) counts: Vec<u64>,
}

/// Notes how many updates there are, where the version has grown.
fn note(counts: &mut Vec<u64>, before: u64, writer: &Writer) -> Result<(), NoMemory>
    ensures { OnOk result (counts.new.items ≡ counts.old.items ++ counted before (newest writer.now.desk) (updates_in writer.now.desk.history)) }
{
    if before < writer.version() {
        counts.push(writer.updates())?;
    }
    Ok(())
}

impl Updating {
    /// Keeps the answer to the update that was decided last.
    fn keep(&mut self, says: Decided, before: u64) -> Result<(), NoMemory>
        ensures decided { OnOk result (self.new.decided.items ≡ self.old.decided.items ++ says ∷ []) }
        ensures counts { OnOk result (self.new.counts.items ≡ self.old.counts.items ++ counted before (newest self.old.writer.desk) (updates_in self.old.writer.desk.history)) }
        ensures same { (self.new.writer ≡ self.old.writer) × (self.new.points ≡ self.old.points) × (self.new.waiting ≡ self.old.waiting) }
    {
        self.decided.push_back(says)?;
        note(&mut self.counts, before, &self.writer)
    }

    /// Tries the first of the updates that wait, and says whether it was decided. Where it is held, it waits on.
    #[tactic(auto, using(crate::proofs::FoundFacts::steps_grow, crate::proofs::UpdatingFacts::along_held))]
    fn step<G: Gate, L: Ledger>(
        &mut self,
        alloc: Global,
        gate: &G,
        steps: &mut Steps<L>,
    ) -> Result<bool, NoMemory>
        requires thresholds { AllByRecursion HasThreshold self.old.waiting.items }
        requires few { length self.old.points.items ≤ 65536 }
        ensures along { OnOk result ((start : Writing) (points : List Spot) (updates : List Asked) → IsAlong start points updates self.old → IsAlong start points updates self.new) }
        ensures thresholds { OnOk result (AllByRecursion HasThreshold self.new.waiting.items) }
        ensures grows { OnOk result (Begins self.old.writer.desk.history self.new.writer.desk.history) }
        ensures few { length self.new.points.items ≤ 65536 }
        ensures table { self.new.writer.table ≡ self.old.writer.table }
    {
        let Some(update) = self.waiting.pop_front() else {
            return Ok(true);
        };
        let before = self.writer.version();
        match decide(
            alloc,
            &mut self.writer,
            &mut self.points,
            update,
            gate,
            steps,
        ) {
            Ok(Stepped::Done(says)) => match self.keep(says, before) {
                Ok(()) => Ok(true),
                Err(NoMemory) => Err(NoMemory),
            },
            Ok(Stepped::Held(back)) => match self.waiting.push_front(back) {
                Ok(()) => Ok(false),
                Err(_) => Err(NoMemory),
            },
            Err(NoMemory) => Err(NoMemory),
        }
    }

    /// Decides the updates that wait, up to the first that is held, and says whether that were all.
    pub(crate) fn run<G: Gate, L: Ledger>(
        &mut self,
        alloc: Global,
        gate: &G,
        steps: &mut Steps<L>,
    ) -> Result<bool, NoMemory>
        requires thresholds { AllByRecursion HasThreshold self.old.waiting.items }
        requires few { length self.old.points.items ≤ 65536 }
        ensures along { OnOk result ((start : Writing) (points : List Spot) (updates : List Asked) → IsAlong start points updates self.old → IsAlong start points updates self.new) }
        ensures thresholds { OnOk result (AllByRecursion HasThreshold self.new.waiting.items) }
        ensures grows { OnOk result (Begins self.old.writer.desk.history self.new.writer.desk.history) }
        ensures all { IfOk result (λ all. all ≡ true → self.new.waiting.items ≡ []) }
        ensures few { length self.new.points.items ≤ 65536 }
        ensures table { self.new.writer.table ≡ self.old.writer.table }
    {
        for _ in 0..self.waiting.len() {
            match self.step(alloc, gate, steps) {
                Ok(true) => {}
                Ok(false) => return Ok(false),
                Err(NoMemory) => return Err(NoMemory),
            }
        }
        Ok(self.waiting.is_empty())
    }
}
