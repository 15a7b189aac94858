//! Rows of shared words that one writer publishes version by version, while readers pin a version
//! and read its rows.
//!
//! All words stand in one table of atomic words: the version word, a pin word for each reader, and
//! the words of all rows. The writer stores new rows where no version has them that a reader may
//! hold, and publishes them by one store of the version word. A reader loads the version word,
//! stores what it found in its pin word, and loads the version word again: that load decides. The
//! writer looks at the pin words before it uses a row again. No call waits for another thread.
//!
//! The contract that the layer above uses is that of `Pin::word`: until the pin is left, it is the
//! word of the pinned version's image, whatever the writer stores meanwhile.
//!
//! ```text
//! let pin = guest.pin();                           // decides on a version
//! let word = pin.word(pin.root(), 0, &mut steps);  // ensures word { result ≡ word_of image row place }
//! let guest = pin.leave();                         // has seen that version
//! ```
#![tactic(auto)]

pub mod board;
pub mod fact;
mod guest;
pub mod law;
mod link;
mod look;
mod make;
mod master;
mod note;
mod pin;
pub mod plays;
#[cfg(test)]
mod tests;
pub mod views;

pub use board::{MOST_PINS, MOST_ROWS};
pub use fact::{Added, Fact};
pub use guest::Guest;
pub use look::{Lowest, Seen, look_at_all};
pub use make::new;
pub use master::{Master, NoPin};
pub use note::Note;
pub use pin::Pin;
