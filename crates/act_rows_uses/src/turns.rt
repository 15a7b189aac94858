//! A writer and a reader in two threads.
ghost use Rattle.std.specs.Prelude.{◌≡◌, ℕ, ◌+◌, ◌<◌, Contains};
ghost use lib.ListN.{get_elem?};
ghost use mathlib.Core.Option.{some};
ghost use Rattle.act_rows.specs.declared.views.Version.{Version};
ghost use Rattle.act_rows.specs.Versions.{newest};

use crate::numbers::{Numbers, advance, read};
use act_base::Steps;
use act_rows::{Guest, Master, look_at_all};
use std::marker::Brand;
use std::sync::ledger::{Blank, Ledger};
use std::thread;
use std::thread::Threads;

/// Publishes rows 2 to 8 of a table for images of 4 rows. After each the guest is told of it, and
/// reads. It says whether each number that was read was the version just published.
pub fn write_all<L: Ledger>(
    master: Master<Numbers>,
    guest: Guest<Numbers>,
    blank: Blank,
) -> (Master<Numbers>, Guest<Numbers>, bool)
    requires rows { master.desk.rows ≡ 4 }
    requires fresh { (v : ℕ) (x : Version) (r : ℕ) → get_elem? master.desk.versions v ≡ some x → Contains x.image.rows r → r < 2 }
    requires start { newest master.desk ≡ 0 }
    requires table { guest.table ≡ master.table }
    requires blank { (blank.name ≡ L.name) × (blank.parts ≡ L.parts) × (0 < L.parts) }
    ensures table { (result.0.table ≡ master.table) × (result.1.table ≡ master.table) }
    ensures version { newest result.0.desk ≡ 7 }
{
    let mut steps = Steps::<L>::new(blank);
    let mut master = master;
    let mut guest = guest;
    let mut told = true;
    for row in 2..9u32 {
        advance::<Brand, L>(&mut master, row, &mut steps);
        guest.learn(master.note());
        let (number, back) = read(guest, &mut steps);
        guest = back;
        told = told && number == master.version();
        let _lowest = look_at_all(&mut master);
    }
    (master, guest, told)
}

/// Reads 2,000 times, and says whether no number was below the one before.
pub fn read_often<L: Ledger>(guest: Guest<Numbers>, blank: Blank) -> (Guest<Numbers>, bool)
    requires blank { (blank.name ≡ L.name) × (blank.parts ≡ L.parts) × (0 < L.parts) }
    ensures table { result.0.table ≡ guest.table }
{
    let mut steps = Steps::<L>::new(blank);
    let mut guest = guest;
    let mut rises = true;
    let mut before = 0;
    for _ in 0..2000 {
        let (number, back) = read(guest, &mut steps);
        guest = back;
        rises = rises && before <= number;
        before = number;
    }
    (guest, rises)
}

/// The writer with one guest in one thread, and the other guest in another. It says what both say.
pub fn both<R: Threads + Sync, L: Ledger + Send + Sync, M: Ledger + Send + Sync>(
    rt: &R,
    master: Master<Numbers>,
    first: Guest<Numbers>,
    second: Guest<Numbers>,
    writes: Blank,
    reads: Blank,
) -> (Master<Numbers>, bool)
    requires rows { master.desk.rows ≡ 4 }
    requires fresh { (v : ℕ) (x : Version) (r : ℕ) → get_elem? master.desk.versions v ≡ some x → Contains x.image.rows r → r < 2 }
    requires start { newest master.desk ≡ 0 }
    requires table { (first.table ≡ master.table) × (second.table ≡ master.table) }
    requires writes { (writes.name ≡ L.name) × (writes.parts ≡ L.parts) × (0 < L.parts) }
    requires reads { (reads.name ≡ M.name) × (reads.parts ≡ M.parts) × (0 < M.parts) }
    ensures version { newest result.0.desk ≡ 7 }
{
    let ((mut master, first, told), (second, rises)) = thread::join(
        rt,
        || -> (Master<Numbers>, Guest<Numbers>, bool)
            requires { (master.desk.rows ≡ 4) × ((v : ℕ) (x : Version) (r : ℕ) → get_elem? master.desk.versions v ≡ some x → Contains x.image.rows r → r < 2) × (newest master.desk ≡ 0) × (first.table ≡ master.table) × (writes.name ≡ L.name) × (writes.parts ≡ L.parts) × (0 < L.parts) }
            ensures { (result.0.table ≡ master.table) × (result.1.table ≡ master.table) × (newest result.0.desk ≡ 7) }
        { write_all::<L>(master, first, writes) },
        || -> (Guest<Numbers>, bool)
            requires { (reads.name ≡ M.name) × (reads.parts ≡ M.parts) × (0 < M.parts) }
            ensures { result.0.table ≡ second.table }
        { read_often::<M>(second, reads) },
    );
    master.give_back(first);
    master.give_back(second);
    (master, told && rises)
}
