//! Numbers of rows.

ghost use Rattle.std.specs.Prelude.{◌≡◌, ◌<◌, ◌^◌, IfOk};

use act_grid::NoMemory;

/// More rows than this are answered as want of memory.
const MOST_ROWS: usize = 1 << 30;

/// The number, where it is one of rows.
#[inline]
pub(crate) fn fits(n: usize) -> Result<u32, NoMemory>
    ensures is { IfOk result (λ m. m ≡ n) }
    ensures small { IfOk result (λ m. m < 2 ^ 30) }
{
    if n < MOST_ROWS {
        Ok(n as u32)
    } else {
        Err(NoMemory)
    }
}
