//! Proofs of one key: made of a source of nodes, and checked against a root.
//!
//! It stands on `proof_check`, whose proofs these are, and on `trie_items`, whose `NodeSource` is asked. To
//! make a proof hashes nothing. A source that fails, a proof that is refused and want of memory are its errors.
#![tactic(auto)]

mod joining;
mod proving;
#[cfg(test)]
mod tests;
mod verifying;
mod walking;

pub use proving::prove;
pub use verifying::verify;
pub use walking::path_of;
