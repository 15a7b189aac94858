//! What is said of an update that was decided.

use act_script::Update;
use act_super::Verdict;

/// The end of the reply to an update.
#[derive(Clone, Copy, Debug)]
pub(crate) enum Told {
    /// Nothing where the update is accepted, and else why not.
    Verdict(Option<Verdict>),
    /// How many cells a training trains.
    Split(u32),
}

/// What became of an update that was tried.
#[derive(Drop)]
pub(crate) enum Tried {
    /// It was decided.
    Told(Told),
    /// A version that a reader may hold keeps it from being made. It comes back.
    Held(Update),
}
