//! The writer's plain copy of the shared rows, and the plans that change them.
//!
//! An image is what stands in the shared rows for one state: a row for each trie node, the list rows of each node and a
//! chain of rows for each zone. `Image` tells which row serves for what, and holds no words. A plan holds what shall
//! stand in the rows of a new image, and names its rows by where they stand among those of their kind; `bind` gives them
//! numbers. A plan also holds all memory that `bind` and `install` need.
//!
//! The layer above uses one contract: a bound plan, stored word by word, makes an image that stands for the state after
//! the prepared change.
//!
//! ```text
//! let mut plan = image.plan_whole(alloc, &state, &next)?;
//! plan.bind(&rows);
//! // store plan.word(i, place) at row plan.row(i), for each i below plan.need() and each place, and publish plan.root()
//! image.install(plan);
//! ```
#![tactic(auto)]

mod after;
mod chains;
mod first;
mod fits;
mod gone;
mod image;
mod kept;
mod lists;
mod nodes;
mod old;
mod path;
mod plan;
mod slots;
mod spots;
#[cfg(test)]
mod tests;
mod turned;
mod walk;

pub use image::Image;
pub use plan::Plan;
