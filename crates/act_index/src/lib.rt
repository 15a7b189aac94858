//! An index of zones: one writer changes it version by version, and many readers ask which zones hold a point.
//!
//! The writer prepares an update, plans the rows of the next image, looks at the pins of all readers, and takes
//! rows that no version has which a reader may hold. It stores them, publishes the version, and retires the rows
//! that the new image lacks. A reader pins the current version and answers from its words alone.
//!
//! The contract that the layer above uses is that of `Reader::join`: the pairs are the join of the points with the
//! zones after the first entries of the writer's one history, as many as the answer's version says, and no fewer
//! than the reader has seen before.
//!
//! ```text
//! let mut writer = Writer::new(alloc, settings, 1)?;
//! let mut reader = writer.lend()?;
//! writer.add(7, shape, &mut steps)?;
//! let answer = reader.join(alloc, &points, Layers::all(), &NoGate, &mut steps)?;
//! ```
#![tactic(auto)]

#[cfg(test)]
mod answer_tests;
mod carry;
mod changes;
mod done;
#[cfg(test)]
mod held_tests;
pub mod law;
mod pairs;
mod put;
mod reader;
#[cfg(test)]
mod tests;
#[cfg(test)]
mod thread_tests;
mod train;
mod writer;

pub use changes::{Applied, Change, Changes};
pub use done::{Done, Refused, Turned};
pub use pairs::{Pair, Pairs};
pub use put::Zones;
pub use reader::{Answer, At, Reader};
pub use writer::{Note, Writer};
