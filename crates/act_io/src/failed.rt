//! The one error of sources and sinks.

/// A read or a write failed. The count of faults of its source or sink has then risen.
#[derive(Clone, Copy, Debug, PartialEq, Eq)]
pub struct Failed;
