//! A prepared change is carried through, or stopped.

ghost use Rattle.std.specs.Prelude.{◌≡◌, ℕ, ◌+◌, ◌*◌, ◌^◌, ◌<◌, ◌≤◌, None, IfOk, IfErr};
ghost use Rattle.act_image.specs.Fresh.{fresh_rows};
ghost use Rattle.act_super.specs.States.{IsFor, after, key_of, needs, split_of};
ghost use Rattle.act_rows.specs.Versions.{newest};
ghost use Rattle.act_index.specs.Whole.{IsWhole, parts};
ghost use Rattle.act_index.specs.Calls.{IsGrown, IsLeft, IsRefused};

use crate::done::Refused;
use crate::put::{Zones, put_through};
use act_base::Steps;
use act_image::Image;
use act_pool::Pool;
use act_rows::{Master, look_at_all};
use act_super::{Next, Super};
use std::alloc::Global;
use std::sync::ledger::Ledger;

/// The last version that there may be.
const LAST_VERSION: u64 = 0xFF_FFFF_FFFF;

/// A change that was not carried through.
#[derive(Drop)]
pub(crate) struct Stopped {
    pub(crate) why: Refused,
    pub(crate) next: Next,
}

/// Carries a prepared change through, and answers the version after it. All memory is taken and all readers are looked at before the first store.
pub(crate) fn carry<L: Ledger>(
    alloc: Global,
    master: &mut Master<Zones>,
    plain: &mut Super,
    image: &mut Image,
    pool: &mut Pool,
    next: Next,
    steps: &mut Steps<L>,
) -> Result<u64, Stopped>
    requires whole { IsWhole (parts master.old plain.old image.old pool.old) }
    requires next { IsFor plain.old.settings plain.old.state next }
    requires trains { key_of next.entry ≡ None → 1 ≤ split_of next.entry }
    requires room { needs next.entry ≤ plain.old.spare }
    ensures whole { IsWhole (parts master.new plain.new image.new pool.new) }
    ensures ok { IfOk result (λ _. IsGrown (parts master.old plain.old image.old pool.old) (parts master.new plain.new image.new pool.new) next.entry) }
    ensures version { IfOk result (λ version. (version ≡ newest master.new.desk) × (version < 2 ^ 40)) }
    ensures ticks { IfOk result (λ _. steps.new ≤ steps.old + 256 * fresh_rows plain.old.settings plain.old.state next.entry) }
    ensures err { IfErr result (λ stopped. IsRefused (parts master.old plain.old image.old pool.old) (parts master.new plain.new image.new pool.new) next.entry stopped.why) }
    ensures left { IfErr result (λ _. IsLeft (parts master.old plain.old image.old pool.old) (parts master.new plain.new image.new pool.new)) }
    ensures quiet { IfErr result (λ stopped. (stopped.next ≡ next) × (steps.new ≡ steps.old)) }
{
    let version = master.version();
    if version == LAST_VERSION {
        return Err(Stopped {
            why: Refused::Versions,
            next,
        });
    }
    let Ok(mut plan) = image.plan_path(alloc, plain, &next) else {
        return Err(Stopped {
            why: Refused::NoMemory,
            next,
        });
    };
    let Ok(mut rows) = Vec::from_elem(alloc, 0u32, plan.need() as usize) else {
        return Err(Stopped {
            why: Refused::NoMemory,
            next,
        });
    };
    let lowest = look_at_all(master);
    pool.reclaim(lowest.bound);
    let _free = pool.free();
    let Ok(()) = pool.take(rows.as_mut_slice()) else {
        return Err(Stopped {
            why: Refused::Held {
                reader: lowest.reader,
                version: lowest.bound,
                word: lowest.word,
            },
            next,
        });
    };
    plan.bind(rows.as_slice());
    let _version = master.version();
    put_through(master, plain, image, pool, plan, next, steps);
    Ok(version + 1)
}
