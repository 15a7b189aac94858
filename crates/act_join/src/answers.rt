//! Answers to batches.

ghost use Rattle.std.specs.Prelude.{◌≡◌, IfOk};
ghost use Rattle.act_rows.specs.History.{Begins, History};
ghost use Rattle.act_join.specs.Working.{IsFound};

use act_base::Steps;
use act_grid::NoMemory;
use act_index::{Answer, Reader};
use act_io::Gate;
use act_script::Batch;
use std::alloc::Global;
use std::sync::ledger::Ledger;

/// The greatest batch that a reader answers.
const MOST_POINTS: usize = 8192;

/// Answers a batch. One of more points than any segmenter gives is answered as want of memory.
pub(crate) fn answer_one<G: Gate, L: Ledger>(
    alloc: Global,
    reader: &mut Reader,
    batch: &Batch,
    gate: &G,
    steps: &mut Steps<L>,
) -> Result<Answer, NoMemory>
    ensures found { IfOk result (λ answer. (before : History) → Begins before reader.old.ticket.seen → IsFound before reader.new.ticket.seen batch.now answer) }
    ensures later { Begins reader.old.ticket.seen reader.new.ticket.seen }
    ensures table { reader.new.table ≡ reader.old.table }
{
    let points = batch.points.as_slice();
    if points.len() > MOST_POINTS {
        return Err(NoMemory);
    }
    reader.join(alloc, points, batch.layers, gate, steps)
}
