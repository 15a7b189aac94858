//! The replies in the order of a segment's steps.

ghost use Rattle.std.specs.Prelude.{◌≡◌, ◌++◌, ◌∷◌, [], IfOk, IfSome, OnOk, List, Bool, ℕ, true, false, slice_index};
ghost use Rattle.act_super.specs.declared.entry.Entry.{Entry};
ghost use Rattle.act_index.specs.Answers.{Answered};
ghost use Rattle.act_script.specs.Turns.{Turn};
ghost use Rattle.act_script.specs.declared.segment.Batch.{Batch as Joins};
ghost use Rattle.act_join.specs.declared.decide.Decided.{Decided as Says};
ghost use Rattle.act_join.specs.Held.{Held};
ghost use Rattle.act_join.specs.Merging.{IsMerging, TakesBatch, TakesUpdate};
ghost use Rattle.act_join.specs.Solved.{AreReplies};

use crate::decide::Decided;
use crate::reply::{Reply, Solved};
use act_grid::NoMemory;
use act_index::Answer;
use act_script::Batch;
use std::alloc::Global;
use std::collections::VecDeque;

/// What a segment's replies are made of beside its updates, in its order.
#[derive(Drop)]
pub(crate) struct Pieces {
    /// For each step whether it is a batch.
    pub(crate) order: VecDeque<bool>,
    pub(crate) batches: VecDeque<Batch>,
    pub(crate) answers: VecDeque<Answer>,
}

/// The number at a place, and 0 where there is none.
fn count_at(counts: &[u64], place: usize) -> u64
    ensures { result ≡ slice_index counts.now place }
{
    match counts.get(place) {
        Some(count) => *count,
        None => 0,
    }
}

/// The reply to the next batch.
fn next_batch(
    batches: &mut VecDeque<Batch>,
    answers: &mut VecDeque<Answer>,
    counts: &[u64],
    first: u64,
) -> Option<Reply>
    ensures { IfSome result (λ one. TakesBatch counts.now first batches.old.items batches.new.items answers.old.items answers.new.items one) }
{
    let Some(batch) = batches.pop_front() else {
        return None;
    };
    let Some(answer) = answers.pop_front() else {
        return None;
    };
    let after = count_at(counts, answer.version().saturating_sub(first) as usize);
    Some(Reply::Batch {
        batch,
        after,
        answer,
    })
}

/// The reply to the next update.
fn next_update(decided: &mut VecDeque<Decided>) -> Option<Reply>
    ensures { IfSome result (λ one. TakesUpdate decided.old.items decided.new.items one) }
{
    let Some(Decided { added, line }) = decided.pop_front() else {
        return None;
    };
    Some(Reply::Update { added, line })
}

/// Puts the reply to the next batch behind the others.
fn put_batch(
    pieces: &mut Pieces,
    counts: &[u64],
    first: u64,
    replies: &mut Vec<Reply>,
) -> Result<(), NoMemory>
    ensures order { pieces.new.order ≡ pieces.old.order }
    ensures merges { OnOk result ((held : Held) (made : List Entry) (turns : List Turn) (order : List Bool) (says : List Says) → IsMerging held made turns (true ∷ order) says pieces.old.batches.items pieces.old.answers.items counts.now first replies.old.items → IsMerging held made turns order says pieces.new.batches.items pieces.new.answers.items counts.now first replies.new.items) }
{
    match next_batch(&mut pieces.batches, &mut pieces.answers, counts, first) {
        Some(reply) => {
            replies.push(reply)?;
            Ok(())
        }
        None => Err(NoMemory),
    }
}

/// Puts the reply to the next update behind the others.
fn put_update(decided: &mut VecDeque<Decided>, replies: &mut Vec<Reply>) -> Result<(), NoMemory>
    ensures { OnOk result ((held : Held) (made : List Entry) (turns : List Turn) (order : List Bool) (batches : List Joins) (answers : List Answered) (counts : List ℕ) (first : ℕ) → IsMerging held made turns (false ∷ order) decided.old.items batches answers counts first replies.old.items → IsMerging held made turns order decided.new.items batches answers counts first replies.new.items) }
{
    match next_update(decided) {
        Some(reply) => {
            replies.push(reply)?;
            Ok(())
        }
        None => Err(NoMemory),
    }
}

/// Puts the next reply behind the others, and says whether there was one.
fn put_next(
    decided: &mut VecDeque<Decided>,
    pieces: &mut Pieces,
    counts: &[u64],
    first: u64,
    replies: &mut Vec<Reply>,
) -> Result<(), NoMemory>
    ensures { OnOk result ((held : Held) (made : List Entry) (turns : List Turn) → IsMerging held made turns pieces.old.order.items decided.old.items pieces.old.batches.items pieces.old.answers.items counts.now first replies.old.items → IsMerging held made turns pieces.new.order.items decided.new.items pieces.new.batches.items pieces.new.answers.items counts.now first replies.new.items) }
{
    match pieces.order.pop_front() {
        Some(true) => put_batch(pieces, counts, first, replies),
        Some(false) => put_update(decided, replies),
        None => Ok(()),
    }
}

/// Puts the pieces together: `first` is the version before the segment, and `counts` tells how many updates the
/// history has at that version, at the next one, and so on.
pub(crate) fn merge(
    alloc: Global,
    decided: &mut VecDeque<Decided>,
    mut pieces: Pieces,
    counts: &[u64],
    first: u64,
) -> Result<Solved, NoMemory>
    ensures { IfOk result (λ solved. (held : Held) (made : List Entry) (turns : List Turn) → IsMerging held made turns pieces.order.items decided.old.items pieces.batches.items pieces.answers.items counts.now first [] → AreReplies held made held turns solved) }
{
    let mut replies = Vec::new(alloc);
    for _ in 0..pieces.order.len() {
        put_next(decided, &mut pieces, counts, first, &mut replies)?;
    }
    // No step is left here.
    if !pieces.order.is_empty() {
        return Err(NoMemory);
    }
    Ok(Solved::from_vec(replies))
}
