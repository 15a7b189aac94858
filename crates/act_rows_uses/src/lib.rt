//! Callers of `act_rows`, proved: a writer that stores a row word by word and publishes it, a reader
//! that pins, reads and leaves, and both in two threads.
//!
//! The fact that they give the rows is that the first word of the root is the number of the version,
//! so that a reader's answer is proved from what it reads: `numbers::read` ensures that the number is
//! the length of the history that the reader has then seen.
#![tactic(auto)]

pub mod numbers;
#[cfg(test)]
mod tests;
pub mod turns;
