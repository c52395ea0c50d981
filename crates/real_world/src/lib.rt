//! The real things behind the traits of the outside: files of a folder, and the standard streams.
//!
//! It stands on `disk_world` and `mdb_base`, whose traits it meets. Each thing counts its failures
//! and tells nothing else: what the system keeps, gives and takes, no clause can say. So these few
//! lines are trusted, and tested.
#![tactic(auto)]

mod file_disk;
mod streams;

pub use file_disk::FileDisk;
pub use streams::{StdSink, StdSource};

#[cfg(test)]
mod tests;
