//! The values of a store: a journal of batches, and an index that says where the value of each key stands.
//!
//! It stands on `mdb_journal` for the records, on `mdb_base` for the batches and on the words of
//! `store_model`. Its errors are those of the journal, `Full`, and want of memory. Keys and where
//! their values stand are in memory; values are read from the disk when they are asked for.
#![tactic(auto)]

mod fault;
mod heads;
mod index;
mod last_key;
mod loader;
mod opening;
mod pair_sink;
mod pieces;
mod place;
mod place_reading;
mod placing;
mod reading;
mod records;
mod store;
mod writing;

pub use fault::ValueFault;
pub use pair_sink::PairSink;
pub(crate) use place::Place;
pub use store::ValueStore;

#[cfg(test)]
mod tests;
