//! The bits of two numbers, one from each in turn.

ghost use Rattle.std.specs.Prelude.{◌≡◌, ◌*◌, ◌/◌, ◌^◌, ◌<◌, ◌≤◌, bit_and, bit_or};
ghost use Rattle.act_grid.specs.Cell.{column, row};
ghost use Rattle.act_grid.specs.Spaced.{spaced};

/// The number whose bits come from `x` and `y` in turn, the lowest from `x`.
#[inline]
pub(crate) fn interleave(x: u32, y: u32) -> u64
    ensures columns { column 32 result ≡ x }
    ensures rows { row 32 result ≡ y }
{
    spread(x) + (spread(y) << 1)
}

// The bits of x, each followed by a bit 0.
#[inline]
fn spread(x: u32) -> u64
    ensures bits { result ≡ spaced 32 x }
    ensures apart { result ≤ 0x5555_5555_5555_5555 }
{
    let pairs = apart(u64::from(x), 16, 0x0000_ffff_0000_ffff);
    let bytes = apart(pairs, 8, 0x00ff_00ff_00ff_00ff);
    let nibbles = apart(bytes, 4, 0x0f0f_0f0f_0f0f_0f0f);
    let twos = apart(nibbles, 2, 0x3333_3333_3333_3333);
    apart(twos, 1, 0x5555_5555_5555_5555)
}

/// Every second bit of `z`, from the lowest: what `interleave` took from its first number.
#[inline]
pub(crate) fn gather(z: u64) -> u32
    ensures { result ≡ column 32 z }
{
    let twos = together(z & 0x5555_5555_5555_5555, 1, 0x3333_3333_3333_3333);
    let nibbles = together(twos, 2, 0x0f0f_0f0f_0f0f_0f0f);
    let bytes = together(nibbles, 4, 0x00ff_00ff_00ff_00ff);
    let pairs = together(bytes, 8, 0x0000_ffff_0000_ffff);
    together(pairs, 16, 0x0000_0000_ffff_ffff) as u32
}

// Copies groups of bits upward, and keeps those that the mask names.
#[inline]
fn apart(v: u64, by: u32, mask: u64) -> u64
    requires few { by < 64 }
    requires fits { v * 2 ^ by < 2 ^ 64 }
    ensures { result ≡ bit_and (bit_or v (v * 2 ^ by)) mask }
{
    (v | v << by) & mask
}

// Copies groups of bits downward, and keeps those that the mask names.
#[inline]
fn together(v: u64, by: u32, mask: u64) -> u64
    requires { by < 64 }
    ensures { result ≡ bit_and (bit_or v (v / 2 ^ by)) mask }
{
    (v | v >> by) & mask
}
