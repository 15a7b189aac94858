//! What several layers of the index speak of: a count of steps, the sight of an image, and how
//! often a list has a number.
//!
//! A call that loads or stores words of rows takes `steps: &mut Steps<L>` last and counts each load
//! or store as one tick, so that the layer above can bound its work. The count stands in contracts
//! alone: it takes no bytes and leaves no instruction.
//!
//! ```text
//! let mut steps = Steps::<Brand>::new(Blank::new(1));
//! pin.word(row, 0, &mut steps); // ensures steps.new ≡ steps.old + 1
//! ```
#![tactic(auto)]

mod steps;
#[cfg(test)]
mod tests;

pub use steps::Steps;
