//! The root and the node table of a map, made of its keys in order and the digests of its values.
//!
//! It stands on `trie_items`, `node_codec`, `bit_keys`, `mdb_base` and the words of `base_model` and `trie_model`.
//! Its only error is want of memory. `Builder::add` asks for keys in order and does not test it, and
//! a builder keeps all keys and digests until it is finished; the table takes its keys from there.
#![tactic(auto)]

mod builder;
mod entry;
mod nodes;
mod pass;
mod sinks;
#[cfg(test)]
mod tests;

pub use builder::{Builder, root_of_builder, table_of_builder};
