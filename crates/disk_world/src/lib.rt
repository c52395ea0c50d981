//! The trait by which a store sees its disk: five files, which are read, written, cut and synced.
//!
//! It stands on `disk_model`, whose words its contracts speak. `Failed` is the answer of a disk
//! whose count of faults rose, `NoMemory` that of a call that found no memory. What a disk of the
//! real world holds, and what a crash leaves of it, no clause can say: such a disk tells nothing.
#![tactic(auto)]

mod disk;
mod faults;

pub use disk::Disk;
pub use faults::{Failed, NoMemory};
