//! The making of the table.
ghost use Rattle.std.specs.Prelude.{◌≡◌, ◌<◌, ◌≤◌, [], replicate, IfOk, Some, None};
ghost use Rattle.act_rows.specs.First.{first_image, first_desk};
ghost use Rattle.act_rows.specs.declared.board.Sizes.{Sizes};

use crate::board::{Board, Place, Sizes, WORDS_OF_A_ROW};
use crate::fact::Fact;
use crate::link::Link;
use crate::master::Master;
use act_grid::NoMemory;
use atomic_table::Table;
use std::alloc::Global;

// As many shares of the table.
fn share<F: Fact>(
    alloc: Global,
    link: &Link<F>,
    count: usize,
) -> Result<Vec<Option<Link<F>>>, NoMemory>
    ensures { IfOk result (λ v. v.items ≡ replicate count (Some link.now)) }
{
    let mut spares = Vec::with_capacity(alloc, count)?;
    for _ in 0..count {
        spares.push(Some(link.another()?))?;
    }
    Ok(spares)
}

fn no_bounds(alloc: Global, count: usize) -> Result<Vec<Option<u64>>, NoMemory>
    ensures { IfOk result (λ v. v.items ≡ replicate count None) }
{
    let mut bounds = Vec::with_capacity(alloc, count)?;
    for _ in 0..count {
        bounds.push(None)?;
    }
    Ok(bounds)
}

/// A table for images of at most `rows` rows and for `pins` readers, at version 0, whose one row is
/// row 1, of zeros. It takes all memory that the table and its readers will ever take: 8 bytes a
/// word, 4 KiB for each of `rows`. While it is made there are two copies of the words.
pub fn new<F: Fact>(alloc: Global, rows: u32, pins: u32) -> Result<Master<F>, NoMemory>
    requires rows { (0 < rows) × (rows ≤ 262144) }
    requires pins { (0 < pins) × (pins ≤ 64) }
    requires fits { F.fact [] 1 (first_image rows) }
    ensures { IfOk result (λ m. m.desk ≡ first_desk (record { rows = rows; pins = pins })) }
{
    let count = 1 + pins as usize + 2 * WORDS_OF_A_ROW * rows as usize;
    let mut words = Vec::from_elem(alloc, 0u64, count)?;
    words[0] = 1;
    let sizes = Sizes { rows, pins };
    let (table, seat): (Board<F, Global>, Place) = Table::of_words(
        alloc,
        words.as_slice(),
        &sizes,
    )?;
    drop(words);
    let link = Link::new(alloc, table)?;
    let bounds = no_bounds(alloc, pins as usize)?;
    let spares = share(alloc, &link, pins as usize)?;
    Ok(Master {
        link,
        seat,
        rows,
        pins,
        version: 0,
        bounds,
        spares,
    })
}
