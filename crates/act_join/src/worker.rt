//! Workers, each with a reader and its claims on the batches.

ghost use Rattle.std.specs.Prelude.{◌≡◌, ◌<◌, ◌++◌, [], ◌∷◌, if◌then◌else◌, length, true};
ghost use Rattle.atomic_table.specs.Seated.{TableId};
ghost use Rattle.act_rows.specs.History.{History};
ghost use Rattle.act_join.specs.Workers.{IsWorking, MayDraw};

use crate::answers::answer_one;
use act_base::Steps;
use act_grid::NoMemory;
use act_index::{Answer, Reader};
use act_io::Gate;
use act_script::Batch;
use act_tally::Claimer;
use std::alloc::Global;
use std::marker::Brand;
use std::sync::ledger::{Blank, Ledger};

/// An answer, and the place of its batch.
#[derive(Drop)]
pub(crate) struct Found {
    pub(crate) place: u32,
    pub(crate) answer: Answer,
}

/// A worker of a segment.
#[derive(Drop)]
pub(crate) struct Worker {
    pub(crate) reader: Reader,
    pub(crate) claimer: Claimer,
    pub(crate) found: Vec<Found>,
    pub(crate) alloc: Global,
}

impl Worker {
    /// Keeps an answer, and says whether there was room for it.
    fn keep(&mut self, one: Found) -> bool
        ensures same { (self.new.reader ≡ self.old.reader) × (self.new.claimer ≡ self.old.claimer) }
        ensures found { self.new.found.items ≡ (if result then self.old.found.items ++ one ∷ [] else self.old.found.items) }
    {
        match self.found.push(one) {
            Ok(()) => true,
            Err(_) => false,
        }
    }

    /// Answers the batch at a place, and says whether it did.
    fn answer<G: Gate, L: Ledger>(
        &mut self,
        place: u32,
        batches: &[Batch],
        gate: &G,
        steps: &mut Steps<L>,
    ) -> bool
        requires { place < length batches.now }
        ensures works { (table : TableId) (before : History) → IsWorking table before batches.now self.old → IsWorking table before batches.now self.new }
        ensures claimer { self.new.claimer ≡ self.old.claimer }
    {
        match answer_one(
            self.alloc,
            &mut self.reader,
            &batches[place as usize],
            gate,
            steps,
        ) {
            Ok(answer) => self.keep(Found { place, answer }),
            Err(NoMemory) => false,
        }
    }

    /// Draws a batch and answers it, and says whether it did.
    fn turn<G: Gate, L: Ledger>(
        &mut self,
        batches: &[Batch],
        gate: &G,
        steps: &mut Steps<L>,
    ) -> bool
        requires draws { MayDraw batches.now self.old }
        ensures draws { result ≡ true → MayDraw batches.now self.new }
        ensures works { (table : TableId) (before : History) → IsWorking table before batches.now self.old → IsWorking table before batches.now self.new }
    {
        match self.claimer.draw() {
            Some(place) => self.answer(place, batches, gate, steps),
            None => false,
        }
    }

    // The steps are counted under the name that the caller picks.
    fn work_as<G: Gate, L: Ledger>(&mut self, batches: &[Batch], gate: &G, blank: Blank)
        requires blank { (blank.name ≡ L.name) × (blank.parts ≡ L.parts) × (0 < L.parts) }
        requires draws { MayDraw batches.now self.old }
        ensures { (table : TableId) (before : History) → IsWorking table before batches.now self.old → IsWorking table before batches.now self.new }
    {
        let mut steps = Steps::<L>::new(blank);
        for _ in 0..batches.len() {
            if !self.turn(batches, gate, &mut steps) {
                return;
            }
        }
    }

    /// Draws batches and answers them, until none is left or memory runs out. What is then not answered is answered
    /// once the workers are back.
    pub(crate) fn work<G: Gate>(&mut self, batches: &[Batch], gate: &G)
        requires { MayDraw batches.now self.old }
        ensures { (table : TableId) (before : History) → IsWorking table before batches.now self.old → IsWorking table before batches.now self.new }
    {
        self.work_as::<G, Brand>(batches, gate, Blank::new(1));
    }
}
