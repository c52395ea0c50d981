//! Proofs of changes between two maps: made of a source of nodes, and checked against a root and a local map.
//!
//! It stands on `proof_check`, whose proofs these are, on `change_history`, which tells the changes, on
//! `range_proof`, which walks down to both bounds of a range, and on `trie_items`, whose `NodeSource` is asked
//! for nodes and for local pairs. To make a proof hashes nothing. A source that fails, a proof that is refused and want of memory are its errors.
#![tactic(auto)]

mod laying;
mod local;
mod proving;
#[cfg(test)]
mod tests;
mod verifying;

pub use proving::prove;
pub use verifying::verify;
