//! The super covering: one adaptive quadtree covering of all zones, with the state that it belongs to.
//!
//! A cell is split where a zone that is Mixed on it has its own covering's Level below it, or where the cell
//! is trained. The leaves are the reached cells that aren't split; each refers to the zones that aren't
//! Outside on it, and a reference is a true hit where its zone is Inside. The Size of a state is what its
//! nodes, lists and polygons take in rows.
//!
//! A history is a list of entries, each an accepted update; the state after it is a fold of its entries from
//! nothing. An update is prepared first, which decides whether there is room for it and takes the memory that
//! it needs, and is then made by `commit`, which can't fail. No tree is kept: a change goes down where the
//! changed zone is.
//!
//! The layers above use one contract: a prepared change leads to the state after its entry, or the
//! update is turned away with the verdict of the definitions.
//!
//! ```text
//! let mut state = Super::new(alloc, settings);
//! let next = state.prepare_add(alloc, 7, shape)?; // or TurnedAdd, which has the shape and why
//! state.commit(next);
//! state.refs(alloc, state.leaf(p))? // the zones that may hold p
//! ```
#![tactic(auto)]

mod after;
mod below;
mod blocks;
mod both;
mod bounds;
mod chosen;
mod ends;
mod entry;
mod fit;
mod frame;
mod gather;
mod grow;
mod laws;
mod leaf;
mod listed;
mod lists;
mod lost;
mod marks;
mod narrow;
mod next;
mod node;
mod pack;
mod refs;
mod room;
mod same;
mod search;
mod standing;
mod state;
#[cfg(test)]
mod tests;
mod verdict;
mod whole;

pub use entry::{Entry, State, Zone};
pub use laws::{
    blank_image_stands, leaf_holds_point, references_answer, training_changes_no_zone,
    training_is_bounded,
};
pub use marks::Marks;
pub use next::Next;
pub use node::Node;
pub use refs::{ZoneRef, ZoneRefs};
pub use state::Super;
pub use verdict::{TurnedAdd, Verdict};
