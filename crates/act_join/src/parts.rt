//! The updates and the batches of a segment, apart.

ghost use Rattle.std.specs.Prelude.{◌≡◌, ◌++◌, ◌∷◌, [], IfOk, OnOk, map};
ghost use Rattle.act_script.specs.Segments.{is_batch};
ghost use Rattle.act_join.specs.Working.{batches_among, updates_among};

use act_grid::NoMemory;
use act_script::{Batch, Step, Update};
use std::alloc::Global;
use std::collections::VecDeque;

/// The batches of a segment, and for each of its steps whether it is one.
#[derive(Drop)]
pub(crate) struct Parts {
    pub(crate) batches: Vec<Batch>,
    pub(crate) order: VecDeque<bool>,
}

/// Puts a step where it belongs.
fn put_step(waiting: &mut VecDeque<Update>, parts: &mut Parts, step: Step) -> Result<(), NoMemory>
    ensures waiting { OnOk result (waiting.new.items ≡ waiting.old.items ++ updates_among (step ∷ [])) }
    ensures batches { OnOk result (parts.new.batches.items ≡ parts.old.batches.items ++ batches_among (step ∷ [])) }
    ensures order { OnOk result (parts.new.order.items ≡ parts.old.order.items ++ is_batch step ∷ []) }
{
    match step {
        Step::Update(update) => {
            parts.order.push_back(false)?;
            waiting.push_back(update)?;
        }
        Step::Batch(batch) => {
            parts.order.push_back(true)?;
            parts.batches.push(batch)?;
        }
    }
    Ok(())
}

/// Takes steps apart: the updates come behind those that wait.
pub(crate) fn take_apart(
    alloc: Global,
    waiting: &mut VecDeque<Update>,
    steps: Vec<Step>,
) -> Result<Parts, NoMemory>
    ensures waiting { OnOk result (waiting.new.items ≡ waiting.old.items ++ updates_among steps.items) }
    ensures batches { IfOk result (λ parts. parts.batches.items ≡ batches_among steps.items) }
    ensures order { IfOk result (λ parts. parts.order.items ≡ map is_batch steps.items) }
{
    let mut parts = Parts {
        batches: Vec::new(alloc),
        order: VecDeque::new(alloc),
    };
    let mut rest = steps.into_iter();
    while let Some(step) = rest.next() {
        put_step(waiting, &mut parts, step)?;
    }
    Ok(parts)
}
