//! Keys in ascending order.

ghost use Rattle.std.specs.Prelude.{◌≡◌, ◌<◌, ◌≤◌, ℕ, length, slice_index, MatchResult};
ghost use Rattle.act_super.specs.Places.{IsRising, IsPlaceOf};

/// The place of the key, or else the place where it would stand. It takes time logarithmic in the
/// number of keys.
pub(crate) fn place(keys: &[u32], key: u32) -> Result<usize, usize>
    requires { IsRising keys.now }
    ensures { IsPlaceOf key keys.now result }
{
    keys.binary_search(&key)
}
