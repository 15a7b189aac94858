//! The steps of a publication, once a plan has its rows.

ghost use Rattle.std.specs.Prelude.{◌≡◌, ℕ, ◌+◌, ◌*◌, ◌^◌, ◌<◌, ◌≤◌, ◌++◌, length, slice_index};
ghost use Rattle.act_base.specs.Counting.{times};
ghost use Rattle.act_super.specs.States.{IsFor, IsAllowed, after, needs};
ghost use Rattle.act_rows.specs.Asked.{MayStore, MayPublish};
ghost use Rattle.act_rows.specs.Versions.{newest};
ghost use Rattle.act_pool.specs.Retired.{rows_of, Each};
ghost use Rattle.act_image.specs.Pics.{rows_in, firsts_in, installed};
ghost use Rattle.act_index.specs.Codes.{code};
ghost use Rattle.act_index.specs.Meanings.{Means};
ghost use Rattle.act_index.specs.Whole.{IsWhole, parts};
ghost use Rattle.act_index.specs.Calls.{IsGrown};
ghost use Rattle.act_index.specs.Written.{IsReady, Written, paired, renewed};

use act_base::Steps;
use act_image::{Image, Plan};
use act_pool::Pool;
use act_rows::{Added, Fact, Master};
use act_super::{Next, Super};
use std::marker::Brand;
use std::sync::ledger::Ledger;

/// The fact of each version that a reader may hold: its image stands for the state after its history.
pub struct Zones;

impl Fact for Zones {
    ghost fact = { Means };
}

// Stores all words of a plan, 256 for each of its rows.
fn write_all<F: Fact, L: Ledger>(master: &mut Master<F>, plan: &Plan, steps: &mut Steps<L>)
    requires len { length plan.now.rows ≡ plan.now.need }
    requires once { (r : ℕ) → times plan.now.rows r ≤ 1 }
    requires may { (i : ℕ) → i < plan.now.need → MayStore master.old.desk (slice_index plan.now.rows i) }
    ensures table { master.new.table ≡ master.old.table }
    ensures written { Written master.old.desk master.new.desk plan.now (256 * plan.now.need) }
    ensures ticks { steps.new ≡ steps.old + 256 * plan.now.need }
{
    let _version = master.version();
    for i in 0..plan.need() {
        let row = plan.row(i);
        for place in 0..256u32 {
            let word = plan.word(i, place as u8);
            master.store(row, place as u8, word, steps);
        }
    }
}

// What the publication adds is picked by the caller.
fn renew_as<E: Added>(
    master: &mut Master<Zones>,
    plain: &Super,
    image: &Image,
    plan: &Plan,
    next: &Next,
)
    requires entry { E.entry ≡ code plain.now.settings next.now.entry }
    requires rows { E.rows ≡ rows_in (installed image.now plan.now) }
    requires firsts { E.firsts ≡ firsts_in (installed image.now plan.now) }
    requires may { MayPublish Means master.old.desk E.entry plan.now.root E.rows E.firsts }
    ensures table { master.new.table ≡ master.old.table }
    ensures desk { master.new.desk ≡ renewed master.old.desk plain.now.settings next.now.entry image.now plan.now }
{
    let _ = plain;
    let _ = image;
    let _ = next;
    master.publish::<E>(plan.root());
}

// Makes what the plan makes of the image the current version.
fn renew(master: &mut Master<Zones>, plain: &Super, image: &Image, plan: &Plan, next: &Next)
    requires { MayPublish Means master.old.desk (code plain.now.settings next.now.entry) plan.now.root (rows_in (installed image.now plan.now)) (firsts_in (installed image.now plan.now)) }
    ensures table { master.new.table ≡ master.old.table }
    ensures desk { master.new.desk ≡ renewed master.old.desk plain.now.settings next.now.entry image.now plan.now }
{
    renew_as::<Brand>(master, plain, image, plan, next);
}

// The rows that the plan lets go wait from this version on.
fn retire_all(pool: &mut Pool, plan: &Plan, version: u64)
    requires once { (r : ℕ) → times plan.now.gone r + (times pool.old.free r + times (rows_of pool.old.retired) r) ≤ 1 }
    requires range { (r : ℕ) → 0 < times plan.now.gone r → (0 < r) × (r ≤ pool.old.rows) }
    requires last { Each (λ _ w. w ≤ version) pool.old.retired }
    ensures { pool.new ≡ record pool.old { retired = pool.old.retired ++ paired plan.now.gone version } }
{
    for row in plan.gone() {
        pool.retire(*row, version);
    }
}

/// Stores the rows of a plan, publishes them as the next version, retires those that go, and makes the change.
pub(crate) fn put_through<L: Ledger>(
    master: &mut Master<Zones>,
    plain: &mut Super,
    image: &mut Image,
    pool: &mut Pool,
    plan: Plan,
    next: Next,
    steps: &mut Steps<L>,
)
    requires ready { IsReady (parts master.old plain.old image.old pool.old) plan next.entry }
    requires few { newest master.old.desk + 1 < 2 ^ 40 }
    requires next { IsFor plain.old.settings plain.old.state next }
    requires allowed { IsAllowed plain.old.settings plain.old.state next.entry }
    requires room { needs next.entry ≤ plain.old.spare }
    ensures whole { IsWhole (parts master.new plain.new image.new pool.new) }
    ensures grown { IsGrown (parts master.old plain.old image.old pool.old) (parts master.new plain.new image.new pool.new) next.entry }
    ensures ticks { steps.new ≡ steps.old + 256 * plan.need }
{
    let version = master.version();
    write_all(master, &plan, steps);
    renew(master, plain, image, &plan, &next);
    retire_all(pool, &plan, version + 1);
    image.install(plan);
    plain.commit(next);
}
