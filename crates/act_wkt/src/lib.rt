//! Polygons of the well-known text of OGC 06-103r4, clause 7.
//!
//! `read` answers the shape that a text writes, or the first fault from the left with its place. A text is read
//! in one pass; each point goes into a buffer that is kept for all rings, and each ring is copied once, into the
//! shape. `write` answers the text of a shape, which is read again as that shape.
//!
//! The layers above use one contract: what `read` answers is `wkt_of` of the text. For example
//! `read(alloc, b"POLYGON((0 0,1 0,1 1,0 0))", 0)` is a shape of one ring with three vertices, and the same
//! text without its last `)` has the fault NoClose at 25.
#![tactic(auto)]

mod fault;
mod laws;
mod number;
mod reader;
mod rings;
#[cfg(test)]
mod tests;
mod text;
mod token;
mod words;
mod writer;

pub use fault::{WktFault, WktKind};
pub use laws::{no_list_is_cut_off, one_shape_or_fault, spelling_is_read_again};
pub use reader::read;
pub use text::Text;
pub use writer::write;
