//! The words of the command lines of `join` and `demo`, on `clap`.
//!
//! `clap` reads the words after the command, each option with its value as a text; the values are
//! then checked here as numbers within the limits of [`Settings`](act_grid::Settings). The
//! definition of what fits is a plain recursion over the words that knows nothing of `clap` but how
//! a word is cut at its `=`, and a grammar stands above it: the words that fit are those that spell
//! options of `join`, each at most once.
//!
//! The layer above uses one contract: `parse_words` gives the settings that the words ask for, and
//! None exactly where they don't fit.
//!
//! ```text
//! match parse_words(alloc, words)? {
//!     Some(Asked::Join(settings)) => join(settings),
//!     Some(Asked::Demo(count, settings)) => demo(count, settings),
//!     None => usage(),
//! }
//! ```
#![tactic(auto)]

mod demo;
mod kind;
mod law;
mod number;
mod options;
#[cfg(test)]
mod tests;
mod words;

pub use law::reads_what_is_spelled;
pub use words::{Asked, parse_words};
