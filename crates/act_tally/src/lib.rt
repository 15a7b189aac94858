//! Which piece of work each worker takes.
//!
//! A number of pieces is shared by claimers, one a worker. Each draw adds one to a shared word and
//! takes the number that was there as the next piece; a number past the last piece is the end. So no
//! piece is drawn twice, and none is left out that a lower one follows.
//!
//! The contract that the layer above uses: each draw gives a piece that this claimer hasn't drawn,
//! and `Claims::take` ensures that the pieces of the claimers taken back all differ; once all are
//! back and one has met the end, they are all pieces.
//!
//! ```text
//! let mut claims = Claims::new(alloc, 3, 1)?;
//! let mut claimer = claims.hand();       // one for each worker
//! claimer.draw();                        // Some(0), Some(1), Some(2), None
//! claims.take(claimer);
//! ```
#![tactic(auto)]

mod claimer;
mod claims;
mod link;
mod plays;
mod rule;
#[cfg(test)]
mod tests;
pub mod views;

pub use claimer::Claimer;
pub use claims::{Claims, MOST_CLAIMERS};
