//! Stored nodes: digests, children and nodes, and their bytes.
//!
//! It stands on `mdb_base`, `bit_keys` and the words of `base_model` and `trie_model`. `NodeFault`
//! says of bytes that are no stored node which field is the first one outside the grammar, and
//! `encode` and the copies answer `NoMemory` alone.
//! A node does not hold its key, which is what it is found by.
#![tactic(auto)]

mod digest;
mod fault;
mod node;
mod reading;
#[cfg(test)]
mod tests;
mod writing;

pub use digest::Digest;
pub use fault::NodeFault;
pub use node::{Child, Node};
pub use reading::decode;
pub use writing::encode;
