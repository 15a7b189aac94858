//! Replies that go through the buffer to the output.

ghost use Rattle.std.specs.Prelude.{◌≡◌, ◌≤◌, ◌++◌, [], slice_index, OnOk};
ghost use Rattle.act_io.specs.Streams.{stream};
ghost use Rattle.act_join.specs.Replies.{head_text, key_text, one_text, pairs_text, replies_text};
ghost use Rattle.act_join.specs.Puts.{Puts, Writes};

use crate::fault::SegmentFault;
use crate::reply::{Line, Reply, Solved};
use crate::words::{push_head, push_pair};
use act_index::{Answer, Pair};
use act_io::{Sink, put_all};
use act_script::Batch;

/// The bytes from which on the buffer is written.
const FULL_BYTES: usize = 65_536;

/// Writes what is in the buffer.
fn flush<K: Sink>(out: &mut K, text: &mut Vec<u8>) -> Result<(), SegmentFault>
    ensures put { Puts (stream K.written K.faults out.old out.new) text.old.items text.new.items [] result }
    ensures empty { OnOk result (text.new.items ≡ []) }
{
    if put_all(out, text).is_err() {
        return Err(SegmentFault::WriteFault);
    }
    text.clear();
    Ok(())
}

/// Writes the buffer where it is full.
fn drain<K: Sink>(out: &mut K, text: &mut Vec<u8>) -> Result<(), SegmentFault>
    ensures { Puts (stream K.written K.faults out.old out.new) text.old.items text.new.items [] result }
{
    if text.len() >= FULL_BYTES {
        return flush(out, text);
    }
    Ok(())
}

fn put_pair<K: Sink>(out: &mut K, text: &mut Vec<u8>, id: u64, key: u32) -> Result<(), SegmentFault>
    ensures { Puts (stream K.written K.faults out.old out.new) text.old.items text.new.items (key_text id key) result }
{
    if push_pair(text, id, key).is_err() {
        return Err(SegmentFault::NoMemory);
    }
    drain(out, text)
}

/// The id at a place, and 0 where there is none.
fn id_at(ids: &[u64], place: usize) -> u64
    ensures { result ≡ slice_index ids.now place }
{
    match ids.get(place) {
        Some(id) => *id,
        None => 0,
    }
}

/// The lines of the pairs of an answer.
fn put_pairs<K: Sink>(
    out: &mut K,
    text: &mut Vec<u8>,
    ids: &[u64],
    pairs: &[Pair],
) -> Result<(), SegmentFault>
    ensures { Puts (stream K.written K.faults out.old out.new) text.old.items text.new.items (pairs_text ids.now pairs.now) result }
{
    for pair in pairs {
        put_pair(out, text, id_at(ids, pair.point as usize), pair.key)?;
    }
    Ok(())
}

/// The reply to a batch, by its answer.
fn put_answer<K: Sink>(
    out: &mut K,
    text: &mut Vec<u8>,
    batch: &Batch,
    after: u64,
    answer: &Answer,
) -> Result<(), SegmentFault>
    ensures { Puts (stream K.written K.faults out.old out.new) text.old.items text.new.items (head_text after batch.now ++ pairs_text batch.now.ids answer.now.pairs) result }
{
    if push_head(text, batch, after).is_err() {
        return Err(SegmentFault::NoMemory);
    }
    put_pairs(out, text, batch.ids.as_slice(), answer.pairs().as_slice())
}

/// The line of an update.
fn put_line<K: Sink>(out: &mut K, text: &mut Vec<u8>, line: &Line) -> Result<(), SegmentFault>
    ensures { Puts (stream K.written K.faults out.old out.new) text.old.items text.new.items line.now result }
{
    if text.extend_from_slice(line.as_slice()).is_err() {
        return Err(SegmentFault::NoMemory);
    }
    drain(out, text)
}

/// A reply, which is let go.
fn put_reply<K: Sink>(out: &mut K, text: &mut Vec<u8>, reply: Reply) -> Result<(), SegmentFault>
    ensures { Puts (stream K.written K.faults out.old out.new) text.old.items text.new.items (one_text reply) result }
{
    match reply {
        Reply::Update { line, .. } => put_line(out, text, &line),
        Reply::Batch {
            batch,
            after,
            answer,
        } => put_answer(out, text, &batch, after, &answer),
    }
}

/// Replies in their order. Each is let go once it is put.
fn put_replies<K: Sink>(
    out: &mut K,
    text: &mut Vec<u8>,
    replies: Vec<Reply>,
) -> Result<(), SegmentFault>
    ensures { Puts (stream K.written K.faults out.old out.new) text.old.items text.new.items (replies_text replies.items) result }
{
    let mut rest = replies.into_iter();
    while let Some(reply) = rest.next() {
        put_reply(out, text, reply)?;
    }
    Ok(())
}

/// Writes replies. The buffer is kept for the next call.
pub(crate) fn write_replies<K: Sink>(
    out: &mut K,
    text: &mut Vec<u8>,
    solved: Solved,
) -> Result<(), SegmentFault>
    ensures text { Writes (stream K.written K.faults out.old out.new) (replies_text solved) result }
    ensures later { OnOk result (K.faults out.old ≤ K.faults out.new) }
{
    text.clear();
    put_replies(out, text, solved.into_vec())?;
    flush(out, text)
}
