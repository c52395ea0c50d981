//! Disks in memory, for tests and for copies that nobody keeps.
//!
//! It stands on `disk_world`. `MemDisk` tells what is read and what a crash may leave, fails the
//! calls it is told to, and crashes. `FlatDisk` tells what is read alone. A call fails besides where
//! a read reaches past the end, where a write ends past the longest file, and where memory is short.
#![tactic(auto)]

mod bytes;
mod changes;
mod file;
mod flat_disk;
mod mem_disk;
mod pick;
mod stops;

pub use flat_disk::FlatDisk;
pub use mem_disk::MemDisk;
pub use pick::Pick;

#[cfg(test)]
mod tests;
