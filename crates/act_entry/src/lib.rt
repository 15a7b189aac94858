//! The words of rows: entries of trie nodes, lists of references, and the chains of polygon rows.
//!
//! A word has 64 bits. The low two bits of an entry say what it is: the row of a child node, one reference, two
//! references, or the place of a list of three and more. A reference is the first row of a zone's polygon with a bit
//! that says whether the zone holds the whole cell. This crate alone packs and unpacks words.
//!
//! The layers above use one contract: `decode` answers `entry_of` of the word, which tells every entry back.
//! `encode(&Entry::Child(3))` is 12.
#![tactic(auto)]

mod chains;
mod entry;
mod law;
mod list;
mod reference;
#[cfg(test)]
mod tests;

pub use chains::{chain, chain_key, chain_next};
pub use entry::{Entry, decode, encode};
pub use law::{entries_are_told_back, lists_are_told_back};
pub use list::{pack, unpack};
pub use reference::Ref;
