//! Bit keys: the keys of the trie as lists of bits, ranges of keys, the factors of the trie, and node IDs.
//!
//! It stands on `trie_model` and `range_model`, whose words its contracts cite. `NoMemory` is its one
//! error, and a key whose bits no `u64` can count is one too. What reads a key takes no memory; what
//! makes one takes the allocator. Keys are read byte by byte, and bit by bit nowhere.
#![tactic(auto)]

mod branch;
mod key;
mod memory;
mod places;
mod placing;
mod ranges;

pub use branch::Branch;
pub use key::Key;
pub use memory::NoMemory;
pub use places::Place;
pub use placing::{key_place, place};
pub use ranges::Range;

/// The ID of a node: a SHA-256 digest, or 32 zero bytes for no node.
pub type Id = [u8; 32];

#[cfg(test)]
mod tests;
