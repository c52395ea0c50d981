//! Opening the store of a disk, as a run of the program does.
//!
//! It stands on `mdb_core` for the store and on the words of `run_model` for what a run sees of a disk. It has one
//! function, which the commands and the lines on a store share; its errors are those of `Db::open`.
#![tactic(auto)]

mod opening;
#[cfg(test)]
mod tests;

pub use opening::open_store;
