//! Proofs of ranges of keys: made of a source of nodes, and checked against a root.
//!
//! It stands on `proof_check`, whose proofs these are, on `point_proof`, which walks down to a bound, and
//! on `trie_items`, whose `NodeSource` is asked. To make a proof hashes nothing. A source that fails, a
//! proof that is refused and want of memory are its errors.
#![tactic(auto)]

mod proving;
mod reaching;
mod taking;
#[cfg(test)]
mod tests;
mod verifying;

pub use proving::{path_of_bound, prove};
pub use reaching::up_to;
pub use taking::{least, next_inside};
pub use verifying::verify;
