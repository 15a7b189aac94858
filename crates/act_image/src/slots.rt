//! Rows that stay and rows that come.

ghost use Rattle.std.specs.Prelude.{◌≡◌, ◌++◌, OnOk, length};
ghost use Rattle.act_image.specs.Kept.{kept_slots, new_slots};
ghost use Rattle.act_image.specs.Slots.{new_places, with_rows};

use std::alloc::AllocError;

/// A row of a new image: one that stays from the old image, with its words, or the next new one.
#[derive(Clone, Copy, Debug, PartialEq, Eq)]
pub(crate) enum Slot {
    Kept(u32),
    New,
}

/// How many rows are new.
pub(crate) fn count_new(slots: &[Slot]) -> usize
    ensures { result ≡ length (new_places 0 slots.now) }
{
    let mut count = 0;
    for k in 0..slots.len() {
        match slots[k] {
            Slot::Kept(_) => {}
            Slot::New => count += 1,
        }
    }
    count
}

/// Writes the numbers of all rows: those that stay, and the new ones in their order.
pub(crate) fn put_rows(all: &mut Vec<u32>, slots: &[Slot], rows: &[u32])
    requires all { length all.old.items ≡ length slots.now }
    requires rows { length rows.now ≡ length (new_places 0 slots.now) }
    ensures { all.new.items ≡ with_rows slots.now rows.now }
{
    let mut taken = 0;
    for k in 0..slots.len() {
        match slots[k] {
            Slot::Kept(row) => all[k] = row,
            Slot::New => {
                all[k] = rows[taken];
                taken += 1;
            }
        }
    }
}

/// Puts rows that stay behind the others.
pub(crate) fn push_kept(slots: &mut Vec<Slot>, rows: &[u32]) -> Result<(), AllocError>
    ensures { OnOk result (slots.new.items ≡ slots.old.items ++ kept_slots rows.now) }
{
    for row in rows {
        slots.push(Slot::Kept(*row))?;
    }
    Ok(())
}

/// Puts so many new rows behind the others.
pub(crate) fn push_new(slots: &mut Vec<Slot>, count: u32) -> Result<(), AllocError>
    ensures { OnOk result (slots.new.items ≡ slots.old.items ++ new_slots count) }
{
    for _i in 0..count {
        slots.push(Slot::New)?;
    }
    Ok(())
}
