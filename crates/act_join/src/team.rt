//! The workers of a segment.

ghost use Rattle.std.specs.Prelude.{◌≡◌, ◌<◌, [], IfOk, IfSome, OnOk, All, List, None, length, replicate};
ghost use Rattle.atomic_table.specs.Seated.{TableId};
ghost use Rattle.act_rows.specs.History.{Begins, History};
ghost use Rattle.act_script.specs.declared.segment.Batch.{Batch as Joins};
ghost use Rattle.act_join.specs.Working.{AreFound, IsFound, Makes};
ghost use Rattle.act_join.specs.Workers.{AreSettled, IsFoundAt, IsWorking, MayDraw};
ghost use Rattle.act_join.specs.declared.worker.Worker.{Worker as WorkerOf};

use crate::answers::answer_one;
use crate::worker::{Found, Worker};
use act_base::Steps;
use act_grid::NoMemory;
use act_index::{Answer, Reader, Writer};
use act_io::Gate;
use act_script::Batch;
use act_tally::Claims;
use std::alloc::Global;
use std::collections::VecDeque;
use std::sync::ledger::Ledger;
use std::thread;
use std::thread::Threads;

/// One more worker.
fn hire_one(alloc: Global, writer: &mut Writer, claims: &mut Claims) -> Result<Worker, NoMemory>
    ensures made { OnOk result (Makes writer.old writer.new []) }
    ensures pieces { claims.new.keeper.pieces ≡ claims.old.keeper.pieces }
    ensures works { IfOk result (λ worker. (batches : List Joins) → length batches ≡ claims.old.keeper.pieces → IsWorking writer.old.table writer.old.desk.history batches worker × MayDraw batches worker) }
{
    let Some(claimer) = claims.hand() else {
        return Err(NoMemory);
    };
    let Ok(reader) = writer.lend() else {
        return Err(NoMemory);
    };
    Ok(Worker {
        reader,
        claimer,
        found: Vec::new(alloc),
        alloc,
    })
}

/// So many workers, each with a reader. They draw the pieces of the claims.
pub(crate) fn hire(
    alloc: Global,
    writer: &mut Writer,
    claims: &mut Claims,
    count: u32,
) -> Result<Vec<Worker>, NoMemory>
    ensures made { OnOk result (Makes writer.old writer.new []) }
    ensures works { IfOk result (λ team. (batches : List Joins) → length batches ≡ claims.old.keeper.pieces → All (IsWorking writer.old.table writer.old.desk.history batches) team.items × All (MayDraw batches) team.items) }
{
    let mut team = Vec::with_capacity(alloc, count as usize)?;
    for _ in 0..count {
        match hire_one(alloc, writer, claims) {
            Ok(worker) => team.push(worker)?,
            Err(NoMemory) => return Err(NoMemory),
        }
    }
    Ok(team)
}

/// Lets each of some workers work, in a thread of its own where there are more than one.
fn work_each<T: Threads + Sync, G: Gate>(rt: &T, team: &mut [Worker], batches: &[Batch], gate: &G)
    requires some { 0 < length team.old }
    requires draws { All (MayDraw batches.now) team.old }
    ensures works { (table : TableId) (before : History) → All (IsWorking table before batches.now) team.old → All (IsWorking table before batches.now) team.new }
{
    let count = team.len();
    thread::for_each_mut(
        rt,
        team,
        count,
        &|_place: usize, worker: &mut Worker|
            requires { MayDraw batches.now worker.now }
            ensures { (table : TableId) (before : History) → IsWorking table before batches.entry.now worker.entry.now → IsWorking table before batches.entry.now worker.exit.now }
        { worker.work(batches, gate) },
    );
}

/// Lets the workers work.
pub(crate) fn work_all<T: Threads + Sync, G: Gate>(
    rt: &T,
    team: &mut Vec<Worker>,
    batches: &[Batch],
    gate: &G,
)
    requires draws { All (MayDraw batches.now) team.old.items }
    ensures works { (table : TableId) (before : History) → All (IsWorking table before batches.now) team.old.items → All (IsWorking table before batches.now) team.new.items }
{
    if !team.is_empty() {
        work_each(rt, team.as_mut_slice(), batches, gate);
    }
}

/// Puts an answer at the place of its batch.
fn put_found(one: Found, slots: &mut Vec<Option<Answer>>)
    ensures { (before now : History) (batches : List Joins) → IsFoundAt before now batches one → AreSettled before now batches slots.old.items → AreSettled before now batches slots.new.items }
{
    let Found { place, answer } = one;
    if place as usize >= slots.len() {
        return;
    }
    slots[place as usize] = Some(answer);
}

/// Puts answers at the places of their batches.
fn put_all_found(mut found: Vec<Found>, slots: &mut Vec<Option<Answer>>)
    ensures { (before now : History) (batches : List Joins) → All (IsFoundAt before now batches) found.items → AreSettled before now batches slots.old.items → AreSettled before now batches slots.new.items }
{
    for _ in 0..found.len() {
        let Some(one) = found.pop() else {
            return;
        };
        put_found(one, slots);
    }
}

/// Takes a worker back, with its reader and its answers.
fn dismiss_one(writer: &mut Writer, worker: Worker, slots: &mut Vec<Option<Answer>>)
    requires table { worker.reader.table ≡ writer.old.table }
    ensures made { Makes writer.old writer.new [] }
    ensures settled { (table : TableId) (before : History) (batches : List Joins) → IsWorking table before batches worker → AreSettled before writer.old.desk.history batches slots.old.items → AreSettled before writer.new.desk.history batches slots.new.items }
{
    let Worker {
        reader,
        claimer: _claimer,
        found,
        alloc: _,
    } = worker;
    writer.give_back(reader);
    put_all_found(found, slots);
}

/// Takes the workers back.
fn dismiss(writer: &mut Writer, mut team: Vec<Worker>, slots: &mut Vec<Option<Answer>>)
    requires tables { All (λ (worker : WorkerOf). worker.reader.table ≡ writer.old.table) team.items }
    ensures made { Makes writer.old writer.new [] }
    ensures settled { (table : TableId) (before : History) (batches : List Joins) → All (IsWorking table before batches) team.items → AreSettled before writer.old.desk.history batches slots.old.items → AreSettled before writer.new.desk.history batches slots.new.items }
{
    for _ in 0..team.len() {
        let Some(worker) = team.pop() else {
            return;
        };
        dismiss_one(writer, worker, slots);
    }
}

/// A place for the answer to each of so many batches.
fn empty_slots(alloc: Global, count: usize) -> Result<Vec<Option<Answer>>, NoMemory>
    ensures { IfOk result (λ slots. slots.items ≡ replicate count None) }
{
    let mut slots = Vec::with_capacity(alloc, count)?;
    for _ in 0..count {
        slots.push(None)?;
    }
    Ok(slots)
}

/// Takes the workers back, and gives their answers at the places of so many batches.
pub(crate) fn settle(
    alloc: Global,
    writer: &mut Writer,
    team: Vec<Worker>,
    count: usize,
) -> Result<Vec<Option<Answer>>, NoMemory>
    requires tables { All (λ (worker : WorkerOf). worker.reader.table ≡ writer.old.table) team.items }
    ensures made { OnOk result (Makes writer.old writer.new []) }
    ensures settled { IfOk result (λ slots. (table : TableId) (before : History) (batches : List Joins) → length batches ≡ count → All (IsWorking table before batches) team.items → AreSettled before writer.new.desk.history batches slots.items) }
{
    match empty_slots(alloc, count) {
        Ok(mut slots) => {
            dismiss(writer, team, &mut slots);
            Ok(slots)
        }
        Err(NoMemory) => Err(NoMemory),
    }
}

/// The answer that is there, or one of the reader.
fn answer_or<G: Gate, L: Ledger>(
    alloc: Global,
    reader: &mut Reader,
    batch: &Batch,
    slot: Option<Answer>,
    gate: &G,
    steps: &mut Steps<L>,
) -> Result<Answer, NoMemory>
    ensures found { IfOk result (λ answer. (before : History) → Begins before reader.old.ticket.seen → IfSome slot (IsFound before reader.old.ticket.seen batch.now) → IsFound before reader.new.ticket.seen batch.now answer) }
    ensures later { Begins reader.old.ticket.seen reader.new.ticket.seen }
    ensures table { reader.new.table ≡ reader.old.table }
{
    match slot {
        Some(answer) => Ok(answer),
        None => answer_one(alloc, reader, batch, gate, steps),
    }
}

/// Answers the batches that no worker has answered.
pub(crate) fn answer_rest<G: Gate, L: Ledger>(
    alloc: Global,
    reader: &mut Reader,
    batches: &[Batch],
    slots: Vec<Option<Answer>>,
    gate: &G,
    steps: &mut Steps<L>,
) -> Result<Vec<Answer>, NoMemory>
    ensures found { IfOk result (λ answers. (before : History) → Begins before reader.old.ticket.seen → AreSettled before reader.old.ticket.seen batches.now slots.items → AreFound before reader.new.ticket.seen batches.now answers.items) }
    ensures table { reader.new.table ≡ reader.old.table }
{
    let mut answers = Vec::with_capacity(alloc, batches.len())?;
    let mut rest = VecDeque::from_vec(slots);
    for batch in batches {
        let Some(slot) = rest.pop_front() else {
            return Err(NoMemory);
        };
        match answer_or(alloc, reader, batch, slot, gate, steps) {
            Ok(answer) => answers.push(answer)?,
            Err(NoMemory) => return Err(NoMemory),
        }
    }
    Ok(answers)
}
