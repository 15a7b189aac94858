//! References to zones.

ghost use Rattle.std.specs.Prelude.{◌≡◌, ◌<◌, ◌^◌};
ghost use Rattle.act_entry.specs.References.{ref_number, ref_of};

/// A reference to a zone.
#[derive(Clone, Copy, Debug, PartialEq, Eq)]
pub struct Ref {
    /// The first row of the zone's polygon, from 1 to 2^30-1.
    pub row: u32,
    /// Whether the zone holds the whole cell, so that no test is needed.
    pub hit: bool,
}

// The number of a reference, below 2^31 where its row is one of a reference.
#[inline]
pub(crate) fn number_of(r: Ref) -> u64
    ensures { result ≡ ref_number r }
{
    u64::from(r.row) * 2 + u64::from(r.hit)
}

// The reference of a number, and None where its row is 0.
#[inline]
pub(crate) fn reference(number: u64) -> Option<Ref>
    requires { number < 2 ^ 31 }
    ensures { result ≡ ref_of number }
{
    let row = (number >> 1) as u32;
    if row == 0 {
        return None;
    }
    Some(Ref {
        row,
        hit: number & 1 == 1,
    })
}
