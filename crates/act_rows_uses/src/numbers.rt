//! Versions that are told by their words: the first word of the root is the number of the version.
ghost use Rattle.std.specs.Prelude.{◌≡◌, ℕ, ◌+◌, ◌*◌, ◌<◌, ◌≤◌, ◌^◌, [], ◌∷◌, length, Contains};
ghost use lib.ListN.{get_elem?};
ghost use mathlib.Core.Option.{some};
ghost use Rattle.act_rows.specs.declared.views.Version.{Version};
ghost use Rattle.act_rows.specs.History.{Begins};
ghost use Rattle.act_rows.specs.Images.{word_of};
ghost use Rattle.act_rows.specs.Versions.{newest};

use act_base::Steps;
use act_rows::{Added, Fact, Guest, Master};
use std::sync::ledger::Ledger;

/// The fact that the first word of the root is the version.
pub struct Numbers;

impl Fact for Numbers {
    ghost fact = { λ h root x. word_of x root 0 ≡ length h };
}

/// Publishes a row that no version has, of which each word is the new version.
pub fn advance<E: Added, L: Ledger>(master: &mut Master<Numbers>, row: u32, steps: &mut Steps<L>)
    requires range { (0 < row) × (row ≤ 2 * master.old.desk.rows) }
    requires fresh { (v : ℕ) (x : Version) (r : ℕ) → get_elem? master.old.desk.versions v ≡ some x → Contains x.image.rows r → r < row }
    requires rows { E.rows ≡ row ∷ [] }
    requires few { newest master.old.desk + 1 < 2 ^ 40 }
    ensures table { master.new.table ≡ master.old.table }
    ensures fresh { (v : ℕ) (x : Version) (r : ℕ) → get_elem? master.new.desk.versions v ≡ some x → Contains x.image.rows r → r < row + 1 }
    ensures sizes { (master.new.desk.rows ≡ master.old.desk.rows) × (master.new.desk.pins ≡ master.old.desk.pins) }
    ensures version { newest master.new.desk ≡ newest master.old.desk + 1 }
    ensures ticks { steps.new ≡ steps.old + 256 }
{
    let version = master.version() + 1;
    for place in 0..256u32 {
        master.store(row, place as u8, version, steps);
    }
    master.publish::<E>(row);
}

/// The first word of the root of the current version, which is that version.
pub fn read<L: Ledger>(guest: Guest<Numbers>, steps: &mut Steps<L>) -> (u64, Guest<Numbers>)
    ensures number { result.0 ≡ length result.1.ticket.seen }
    ensures later { Begins guest.ticket.seen result.1.ticket.seen }
    ensures table { result.1.table ≡ guest.table }
    ensures ticks { steps.new ≡ steps.old + 1 }
{
    let mut pin = guest.pin();
    let root = pin.root();
    let number = pin.word(root, 0, steps);
    (number, pin.leave())
}
