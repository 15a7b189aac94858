//! The text of a script as lines, items, batches and segments, however its bytes are cut.
//!
//! A `Cutter` is given the pieces of a script as they come, and ends one line at a time. `read_line`
//! says what a line says, or its first fault. A `Segmenter` takes the items and gives each segment that
//! one of them closes. Lines, points and steps lie in buffers; nothing is allocated for a line of a point.
//!
//! The layers above use one contract a call: `to_come` of a cutter loses with each call exactly the line
//! that the call ended, `read_line` is `item_of` of the line, and a segmenter gives `given_by` of what is
//! pending. Together these are `script_segments` of the whole script. For example the pieces `drop,7\nsy`
//! and `nc` give the lines `drop,7` and, at the end, `sync`, which closes a segment of one update.
#![tactic(auto)]

mod cutter;
#[cfg(test)]
mod cutter_tests;
mod fault;
mod fields;
mod item;
mod laws;
mod line;
#[cfg(test)]
mod line_tests;
mod lists;
mod pending;
mod row;
mod segment;
#[cfg(test)]
mod segment_tests;
mod segmenter;
mod set;

pub use cutter::{CutFault, Cutter, MOST_BYTES, MOST_LINES, Taken};
pub use fault::LineFault;
pub use item::Item;
pub use laws::{counts_exist, lines_are_records, samples_are_first_points};
pub use line::read_line;
pub use lists::{Ids, Points};
pub use segment::{Batch, Segment, Step, Update};
pub use segmenter::Segmenter;
