//! The journal of a store: records in two files of a disk, each behind a gate that is opened once it is safe.
//!
//! It stands on `disk_world` for the disk and on `store_model` for the words. `JournalFault` says
//! why a call fails; after a disk that failed, each further call that needs it fails. What the
//! payloads mean is for the crate above.
#![tactic(auto)]

mod append;
mod fault;
mod first_header;
mod header;
mod journal;
mod opening;
mod reading;
mod record;
mod synced;
#[cfg(test)]
mod tests;

pub use fault::JournalFault;
pub use journal::Journal;
pub use record::Record;
