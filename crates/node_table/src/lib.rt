//! The nodes of a map's trie in memory, found by their keys, and a source over them and the map's pairs.
//!
//! It stands on `map_root`, which makes the nodes, and on `trie_items`, whose `NodeSource` the source is.
//! Want of memory is its only error. A table and the pairs beside it are not held against each other: the
//! source tells the map of which both are.
#![tactic(auto)]

mod kept;
mod sizes;
mod source;
mod table;
#[cfg(test)]
mod tests;

pub use source::TableSource;
pub use table::NodeTable;
