//! Proofs as values and as bytes, and their check: the nodes of a path, the proofs of one key, of a range
//! and of changes, why bytes are no proof, and why a proof is refused.
//!
//! It stands on `trie_items`, `node_codec`, `bit_keys`, `mdb_base` and the words of `proof_model`.
//! `WireFault` says of bytes that are no proof which field is the first one outside the grammar,
//! `VerifyFault` why a proof is refused, and `encode` answers `NoMemory` alone. A reader does not test
//! whether a proof is a true one. `check` does, of a claim, which every form of proof is made.
#![tactic(auto)]

mod beside;
mod change;
mod change_bytes;
mod change_reading;
mod checking;
mod claim;
mod fields;
mod items;
mod merging;
mod pair_reading;
mod path_reading;
mod paths;
mod point;
mod point_bytes;
mod proof_node;
mod range;
mod range_bytes;
mod refusal;
mod sized_field;
#[cfg(test)]
mod tests;
mod verify_fault;
mod wire_fault;
mod writing;

pub use change::ChangeProof;
pub use checking::{check, check_listed};
pub use claim::{Claim, Entry};
pub use items::items_of;
pub use point::PointProof;
pub use proof_node::ProofNode;
pub use range::{Pair, RangeProof};
pub use refusal::Refusal;
pub use verify_fault::VerifyFault;
pub use wire_fault::{WireFault, WireKind};
