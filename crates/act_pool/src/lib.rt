//! Which rows of the table are free, and which wait until no reader holds a version that has them.
//!
//! A row is in use, free or retired. A writer takes free rows for a new version. Rows that the new
//! version lacks are retired with its number: older versions still have them, so they become free
//! only once every reader is bound at that version or later.
//!
//! The contract that the layer above uses: `take` gives rows that are in use nowhere and no row
//! twice, and `reclaim` frees exactly the retired rows whose version the bound has reached.
//!
//! ```text
//! pool.take(&mut rows)?;      // rows are in use from now on
//! pool.retire(row, version);  // version is the first one that lacks the row
//! pool.reclaim(bound);        // frees each row that was retired with a version up to the bound
//! ```
#![tactic(auto)]

mod pool;
#[cfg(test)]
mod tests;

pub use pool::{Pool, Short};
