//! The first words of polygon rows.

ghost use Rattle.std.specs.Prelude.{◌≡◌, ◌+◌, ◌*◌, ◌^◌, ◌%◌, ◌/◌};

/// The first word of a polygon row: the next row of the zone's chain, 0 in the last one, and the zone's key, in
/// the first row alone.
#[inline]
pub fn chain(next: u32, key: u32) -> u64
    ensures { result ≡ key * 2 ^ 32 + next }
{
    u64::from(key) * 0x1_0000_0000 + u64::from(next)
}

/// The next row that the first word of a polygon row tells.
#[inline]
pub fn chain_next(word: u64) -> u32
    ensures { result ≡ word % 2 ^ 32 }
{
    (word % 0x1_0000_0000) as u32
}

/// The key that the first word of a polygon row tells.
#[inline]
pub fn chain_key(word: u64) -> u32
    ensures { result ≡ word / 2 ^ 32 }
{
    (word / 0x1_0000_0000) as u32
}
