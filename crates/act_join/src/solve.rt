//! The replies to a segment.

ghost use Rattle.std.specs.Prelude.{◌≡◌, ◌≤◌, ◌<◌, ◌++◌, [], ◌∷◌, IfOk, OnOk, All, List, length, map, take, true};
ghost use Rattle.std.specs.List.{AllByRecursion};
ghost use Rattle.atomic_table.specs.Seated.{TableId};
ghost use Rattle.act_grid.specs.declared.Point.{Point as Spot};
ghost use Rattle.act_index.specs.Codes.{updates_in};
ghost use Rattle.act_index.specs.Whole.{Writing};
ghost use Rattle.act_rows.specs.History.{Begins, History};
ghost use Rattle.act_script.specs.Segments.{HasThreshold, HaveThresholds, is_batch};
ghost use Rattle.act_script.specs.Turns.{most_sampled, points_after, turns_of};
ghost use Rattle.act_script.specs.declared.segment.Step.{Step as Stage};
ghost use Rattle.act_script.specs.declared.segment.Update.{Update as Asked};
ghost use Rattle.act_join.specs.Held.{after_turns};
ghost use Rattle.act_join.specs.Solved.{Solves};
ghost use Rattle.act_join.specs.Working.{AreFound, IsAlong, IsOpen, Makes, batches_among, held_by, points_of, updates_among};
ghost use Rattle.act_join.specs.Workers.{IsWorking, MayDraw};
ghost use Rattle.act_join.specs.declared.worker.Worker.{Worker as WorkerOf};

use crate::merge::{Pieces, merge};
use crate::parts::{Parts, take_apart};
use crate::reply::Solved;
use crate::team::{answer_rest, hire, settle, work_all};
use crate::updating::Updating;
use crate::worker::Worker;
use act_base::Steps;
use act_grid::{NoMemory, Point};
use act_index::Answer;
use act_io::{Gate, NoGate};
use act_script::{Batch, Step};
use act_tally::Claims;
use std::alloc::Global;
use std::collections::VecDeque;
use std::sync::ledger::{Blank, Ledger};
use std::thread;
use std::thread::Threads;

/// The points that a sample may have.
const MOST_SAMPLED: usize = 65_536;

/// The first so many points, or all where there are no more.
fn first(points: &[Point], most: usize) -> &[Point]
    ensures { result.now ≡ take most points.now }
{
    if points.len() <= most {
        points
    } else {
        &points[..most]
    }
}

/// Adds points, as many as a sample may have with those that are there.
fn extend(list: &mut Vec<Point>, points: &[Point]) -> Result<(), NoMemory>
    requires { length list.old.items ≤ 65536 }
    ensures ok { OnOk result (list.new.items ≡ take most_sampled (list.old.items ++ points.now)) }
    ensures few { length list.new.items ≤ 65536 }
{
    let room = MOST_SAMPLED - list.len();
    list.extend_from_slice(first(points, room))?;
    Ok(())
}

/// Keeps the points of batches for later samples.
fn gather(list: &mut Vec<Point>, batches: &[Batch]) -> Result<(), NoMemory>
    requires { length list.old.items ≤ 65536 }
    ensures ok { OnOk result (list.new.items ≡ take most_sampled (list.old.items ++ points_of batches.now)) }
    ensures few { length list.new.items ≤ 65536 }
{
    for batch in batches {
        extend(list, batch.points.as_slice())?;
    }
    Ok(())
}

impl Updating {
    /// Begins a segment: its updates wait, and its batches and their order are given.
    fn open(&mut self, alloc: Global, steps: Vec<Step>) -> Result<Parts, NoMemory>
        requires { HaveThresholds steps.items }
        ensures same { (self.new.writer ≡ self.old.writer) × (self.new.points ≡ self.old.points) }
        ensures waiting { OnOk result (self.new.waiting.items ≡ updates_among steps.items) }
        ensures decided { OnOk result (self.new.decided.items ≡ []) }
        ensures counts { OnOk result (self.new.counts.items ≡ updates_in self.old.writer.desk.history ∷ []) }
        ensures thresholds { OnOk result (AllByRecursion HasThreshold self.new.waiting.items) }
        ensures batches { IfOk result (λ parts. parts.batches.items ≡ batches_among steps.items) }
        ensures order { IfOk result (λ parts. parts.order.items ≡ map is_batch steps.items) }
    {
        self.waiting.clear();
        self.decided.clear();
        self.counts.clear();
        self.counts.push(self.writer.updates())?;
        take_apart(alloc, &mut self.waiting, steps)
    }

    /// Decides the updates that are left once no reader is lent. None of them is held then.
    fn finish<L: Ledger>(
        &mut self,
        alloc: Global,
        all: bool,
        steps: &mut Steps<L>,
    ) -> Result<(), NoMemory>
        requires all { all ≡ true → self.old.waiting.items ≡ [] }
        requires thresholds { AllByRecursion HasThreshold self.old.waiting.items }
        requires few { length self.old.points.items ≤ 65536 }
        ensures along { OnOk result ((start : Writing) (points : List Spot) (updates : List Asked) → IsAlong start points updates self.old → IsAlong start points updates self.new) }
        ensures all { OnOk result (self.new.waiting.items ≡ []) }
        ensures grows { OnOk result (Begins self.old.writer.desk.history self.new.writer.desk.history) }
        ensures few { length self.new.points.items ≤ 65536 }
        ensures table { self.new.writer.table ≡ self.old.writer.table }
    {
        if all {
            return Ok(());
        }
        match self.run(alloc, &NoGate, steps) {
            Ok(true) => Ok(()),
            Ok(false) => Err(NoMemory),
            Err(NoMemory) => Err(NoMemory),
        }
    }

    /// Decides the updates with no reader lent.
    fn run_alone<G: Gate, L: Ledger>(
        &mut self,
        alloc: Global,
        gate: &G,
        steps: &mut Steps<L>,
    ) -> Result<(), NoMemory>
        requires thresholds { AllByRecursion HasThreshold self.old.waiting.items }
        requires few { length self.old.points.items ≤ 65536 }
        ensures along { OnOk result ((start : Writing) (points : List Spot) (updates : List Asked) → IsAlong start points updates self.old → IsAlong start points updates self.new) }
        ensures all { OnOk result (self.new.waiting.items ≡ []) }
        ensures few { length self.new.points.items ≤ 65536 }
    {
        match self.run(alloc, gate, steps) {
            Ok(true) => Ok(()),
            Ok(false) => Err(NoMemory),
            Err(NoMemory) => Err(NoMemory),
        }
    }

    /// Decides the updates on one side, while the workers answer batches on the other.
    fn run_both<T: Threads + Sync, G: Gate, L: Ledger + Send>(
        &mut self,
        rt: &T,
        alloc: Global,
        team: &mut Vec<Worker>,
        batches: &[Batch],
        gate: &G,
        steps: &mut Steps<L>,
    ) -> Result<bool, NoMemory>
        requires thresholds { AllByRecursion HasThreshold self.old.waiting.items }
        requires few { length self.old.points.items ≤ 65536 }
        requires draws { All (MayDraw batches.now) team.old.items }
        ensures along { OnOk result ((start : Writing) (points : List Spot) (updates : List Asked) → IsAlong start points updates self.old → IsAlong start points updates self.new) }
        ensures thresholds { OnOk result (AllByRecursion HasThreshold self.new.waiting.items) }
        ensures all { IfOk result (λ all. all ≡ true → self.new.waiting.items ≡ []) }
        ensures few { length self.new.points.items ≤ 65536 }
        ensures grows { OnOk result (Begins self.old.writer.desk.history self.new.writer.desk.history) }
        ensures table { self.new.writer.table ≡ self.old.writer.table }
        ensures works { (table : TableId) (before : History) → All (IsWorking table before batches.now) team.old.items → All (IsWorking table before batches.now) team.new.items }
    {
        let (all, ()) = thread::join_mut(
            rt,
            &mut || -> Result<bool, NoMemory>
                requires thresholds { AllByRecursion HasThreshold self.now.waiting.items }
                requires few { length self.now.points.items ≤ 65536 }
            { self.run(alloc, gate, steps) },
            &mut ||
                requires { All (MayDraw batches.now) team.now.items }
                ensures { (table : TableId) (before : History) → All (IsWorking table before batches.entry.now) team.entry.now.items → All (IsWorking table before batches.entry.now) team.exit.now.items }
            { work_all(rt, team, batches, gate) },
        );
        all
    }

    /// Decides the updates and lets the workers answer batches. Where no update waits, no thread is started for them.
    fn run_beside<T: Threads + Sync, G: Gate, L: Ledger + Send>(
        &mut self,
        rt: &T,
        alloc: Global,
        team: &mut Vec<Worker>,
        batches: &[Batch],
        gate: &G,
        steps: &mut Steps<L>,
    ) -> Result<bool, NoMemory>
        requires thresholds { AllByRecursion HasThreshold self.old.waiting.items }
        requires few { length self.old.points.items ≤ 65536 }
        requires draws { All (MayDraw batches.now) team.old.items }
        ensures along { OnOk result ((start : Writing) (points : List Spot) (updates : List Asked) → IsAlong start points updates self.old → IsAlong start points updates self.new) }
        ensures thresholds { OnOk result (AllByRecursion HasThreshold self.new.waiting.items) }
        ensures all { IfOk result (λ all. all ≡ true → self.new.waiting.items ≡ []) }
        ensures few { length self.new.points.items ≤ 65536 }
        ensures grows { OnOk result (Begins self.old.writer.desk.history self.new.writer.desk.history) }
        ensures table { self.new.writer.table ≡ self.old.writer.table }
        ensures works { (table : TableId) (before : History) → All (IsWorking table before batches.now) team.old.items → All (IsWorking table before batches.now) team.new.items }
    {
        if self.waiting.is_empty() {
            work_all(rt, team, batches, gate);
            return Ok(true);
        }
        self.run_both(rt, alloc, team, batches, gate, steps)
    }

    /// Takes the workers back. What none of them has answered is answered then.
    fn collect<G: Gate, L: Ledger>(
        &mut self,
        alloc: Global,
        team: Vec<Worker>,
        batches: &[Batch],
        gate: &G,
        steps: &mut Steps<L>,
    ) -> Result<Vec<Answer>, NoMemory>
        requires tables { All (λ (worker : WorkerOf). worker.reader.table ≡ self.old.writer.table) team.items }
        ensures made { OnOk result (Makes self.old.writer self.new.writer []) }
        ensures same { (self.new.points ≡ self.old.points) × (self.new.waiting ≡ self.old.waiting) × (self.new.decided ≡ self.old.decided) × (self.new.counts ≡ self.old.counts) }
        ensures found { IfOk result (λ answers. (table : TableId) (before : History) → Begins before self.old.writer.desk.history → All (IsWorking table before batches.now) team.items → AreFound before self.new.writer.desk.history batches.now answers.items) }
    {
        match settle(alloc, &mut self.writer, team, batches.len()) {
            Ok(slots) => {
                let Ok(mut reader) = self.writer.lend() else {
                    return Err(NoMemory);
                };
                match answer_rest(alloc, &mut reader, batches, slots, gate, steps) {
                    Ok(answers) => {
                        self.writer.give_back(reader);
                        Ok(answers)
                    }
                    Err(NoMemory) => Err(NoMemory),
                }
            }
            Err(NoMemory) => Err(NoMemory),
        }
    }

    /// Workers for batches: as many as the settings say, and no more than there are batches.
    fn hire_team(&mut self, alloc: Global, batches: &[Batch]) -> Result<Vec<Worker>, NoMemory>
        requires { 0 < length batches.now }
        ensures made { OnOk result (Makes self.old.writer self.new.writer []) }
        ensures same { (self.new.points ≡ self.old.points) × (self.new.waiting ≡ self.old.waiting) × (self.new.decided ≡ self.old.decided) × (self.new.counts ≡ self.old.counts) }
        ensures draws { IfOk result (λ team. All (MayDraw batches.now) team.items) }
        ensures works { IfOk result (λ team. All (IsWorking self.old.writer.table self.old.writer.desk.history batches.now) team.items) }
    {
        let Ok(pieces) = u32::try_from(batches.len()) else {
            return Err(NoMemory);
        };
        let count = self.settings.workers.min(pieces);
        let mut claims = Claims::new(alloc, pieces, count)?;
        hire(alloc, &mut self.writer, &mut claims, count)
    }

    /// Decides the updates and answers the batches.
    fn answer<T: Threads + Sync, G: Gate, L: Ledger + Send>(
        &mut self,
        rt: &T,
        alloc: Global,
        batches: &[Batch],
        gate: &G,
        steps: &mut Steps<L>,
    ) -> Result<Vec<Answer>, NoMemory>
        requires thresholds { AllByRecursion HasThreshold self.old.waiting.items }
        requires few { length self.old.points.items ≤ 65536 }
        ensures along { OnOk result ((start : Writing) (points : List Spot) (updates : List Asked) → IsAlong start points updates self.old → IsAlong start points updates self.new) }
        ensures all { OnOk result (self.new.waiting.items ≡ []) }
        ensures found { IfOk result (λ answers. AreFound self.old.writer.desk.history self.new.writer.desk.history batches.now answers.items) }
        ensures few { length self.new.points.items ≤ 65536 }
    {
        if batches.is_empty() {
            return match self.run_alone(alloc, gate, steps) {
                Ok(()) => Ok(Vec::new(alloc)),
                Err(NoMemory) => Err(NoMemory),
            };
        }
        match self.hire_team(alloc, batches) {
            Ok(mut team) => match self.run_beside(rt, alloc, &mut team, batches, gate, steps) {
                Ok(all) => match self.collect(alloc, team, batches, gate, steps) {
                    Ok(answers) => match self.finish(alloc, all, steps) {
                        Ok(()) => Ok(answers),
                        Err(NoMemory) => Err(NoMemory),
                    },
                    Err(NoMemory) => Err(NoMemory),
                },
                Err(NoMemory) => Err(NoMemory),
            },
            Err(NoMemory) => Err(NoMemory),
        }
    }

    /// Does what was begun, and gives the replies.
    fn close<T: Threads + Sync, G: Gate, L: Ledger + Send>(
        &mut self,
        rt: &T,
        alloc: Global,
        parts: Parts,
        first: u64,
        gate: &G,
        steps: &mut Steps<L>,
    ) -> Result<Solved, NoMemory>
        requires thresholds { AllByRecursion HasThreshold self.old.waiting.items }
        requires few { length self.old.points.items ≤ 65536 }
        ensures solves { IfOk result (λ solved. (start : Writing) (points : List Spot) (steps : List Stage) → IsOpen start points steps self.old parts first → Solves (held_by start) (turns_of points steps) solved) }
        ensures held { OnOk result ((start : Writing) (points : List Spot) (steps : List Stage) → IsOpen start points steps self.old parts first → held_by self.new.writer ≡ after_turns (held_by start) (turns_of points steps)) }
        ensures points { OnOk result ((start : Writing) (points : List Spot) (steps : List Stage) → IsOpen start points steps self.old parts first → self.new.points.items ≡ points_after points steps) }
        ensures few { length self.new.points.items ≤ 65536 }
    {
        let Parts { order, batches } = parts;
        match self.answer(rt, alloc, batches.as_slice(), gate, steps) {
            Ok(answers) => {
                gather(&mut self.points, batches.as_slice())?;
                let pieces = Pieces {
                    order,
                    batches: VecDeque::from_vec(batches),
                    answers: VecDeque::from_vec(answers),
                };
                merge(
                    alloc,
                    &mut self.decided,
                    pieces,
                    self.counts.as_slice(),
                    first,
                )
            }
            Err(NoMemory) => Err(NoMemory),
        }
    }

    /// Does the steps of a segment, and gives the replies to them.
    pub(crate) fn solve<T: Threads + Sync, G: Gate, L: Ledger + Send>(
        &mut self,
        rt: &T,
        alloc: Global,
        steps: Vec<Step>,
        gate: &G,
        blank: Blank,
    ) -> Result<Solved, NoMemory>
        requires blank { (blank.name ≡ L.name) × (blank.parts ≡ L.parts) × (0 < L.parts) }
        requires thresholds { HaveThresholds steps.items }
        requires few { length self.old.points.items ≤ 65536 }
        ensures solves { IfOk result (λ solved. Solves (held_by self.old.writer) (turns_of self.old.points.items steps.items) solved) }
        ensures held { OnOk result (held_by self.new.writer ≡ after_turns (held_by self.old.writer) (turns_of self.old.points.items steps.items)) }
        ensures points { OnOk result (self.new.points.items ≡ points_after self.old.points.items steps.items) }
        ensures few { length self.new.points.items ≤ 65536 }
    {
        let mut ticks = Steps::<L>::new(blank);
        let first = self.writer.version();
        match self.open(alloc, steps) {
            Ok(parts) => self.close(rt, alloc, parts, first, gate, &mut ticks),
            Err(NoMemory) => Err(NoMemory),
        }
    }
}
