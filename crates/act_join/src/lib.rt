//! Runs the script of an input: cuts its lines, decides updates, answers batches, and writes the replies.
//!
//! The script is read in pieces. Each piece goes through the cutter, the lines and the segmenter of
//! `act_script`, and a segment is run as soon as a line closes it, before the next piece is read.
//!
//! A run has an index. Its one writer decides the updates of a segment in the order of the script, while workers,
//! each with a reader of its own, draw the batches and answer them, each over the zones of one version. A batch's
//! count is the number of updates at that version. A training splits cells that are costly for the points of
//! earlier segments; the answers stay. `Run::solve` gives the replies as values, and `Run::segment` writes them
//! too: text gathers in one buffer, which is written at the end of a line once it has 64 KiB, and at the end of
//! the segment, so that a great answer needs no great buffer.
//!
//! The layer above uses one contract: `engine` answers one `Ended`, and `Ends` says for each what was read
//! and which text was written. For example the script `zone,7,"POLYGON((0 0,9 0,9 9,0 9,0 0))"`, line feed,
//! `point,1,5,5` gives `zone 7 ok`, `batch 1 after 1 points 1` and `1,7`, each with a line feed, and `Done`.
#![tactic(auto)]

mod answers;
mod decide;
mod driver;
mod ended;
mod fault;
mod merge;
mod parts;
mod progress;
mod put;
mod reply;
mod run;
mod solve;
mod team;
#[cfg(test)]
mod tests;
#[cfg(test)]
mod thread_tests;
mod told;
mod updating;
mod words;
mod worker;

pub use driver::engine;
pub use ended::{Ended, ScriptFault};
pub use fault::SegmentFault;
pub use reply::{Line, Reply, Solved};
pub use run::Run;
