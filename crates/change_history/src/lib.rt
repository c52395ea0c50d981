//! The history of a store: what its latest commits changed, with both values of each key, and from which root.
//!
//! It stands on `mdb_base` for changes and batches, on `bit_keys` for ranges and roots, and on the words of `history_model`.
//! `HistoryFault` says why no changes are told: no map that is held has one of the roots, or there is no memory. It holds
//! no map, reads no disk, and believes whoever pushes a commit: for the maps that it recalls its answers are exact.
#![tactic(auto)]

mod commit;
mod delta;
mod fault;
mod finding;
mod history;
mod listing;
mod merging;
mod net;
mod summing;
mod telling;
mod trimming;
mod undoing;

pub(crate) use commit::Commit;
pub use delta::Delta;
pub use fault::HistoryFault;
pub use history::History;
pub(crate) use net::Net;
pub use telling::Taken;

#[cfg(test)]
mod tests;
