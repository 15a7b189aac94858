//! Why a segment was not done.

ghost use Rattle.std.specs.Prelude.{◌≡◌};
ghost use Rattle.act_join.specs.declared.fault.SegmentFault.TheVariants.{NoMemory as Unfed};

use std::alloc::AllocError;

/// Why a segment was not done to its end.
#[derive(Clone, Copy, Debug, PartialEq, Eq)]
pub enum SegmentFault {
    /// The output has failed.
    WriteFault,
    /// There was not memory enough.
    NoMemory,
}

impl From<AllocError> for SegmentFault {
    ghost from_gives = { λ _ fault. fault ≡ Unfed };

    fn from(_: AllocError) -> Self {
        SegmentFault::NoMemory
    }
}

impl From<act_grid::NoMemory> for SegmentFault {
    ghost from_gives = { λ _ fault. fault ≡ Unfed };

    fn from(_: act_grid::NoMemory) -> Self {
        SegmentFault::NoMemory
    }
}
