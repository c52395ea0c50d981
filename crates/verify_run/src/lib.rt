//! Lines that tell of proofs: each is checked against the root that stands in it, and what it shows is printed.
//!
//! It stands on `batch_text` for the lines, on `point_proof`, `range_proof` and `change_proof` for the check, on
//! `store_opening` for the store against whose map changes are checked, and on the words of `run_model`. `VerifyEnd` says
//! how it ends: at the end of the input, at the first line that is not understood, whose proof is refused or whose store is
//! not opened, or where something outside fails. A disk is used only once a line tells of changes.
#![tactic(auto)]

mod change_lines;
mod checking;
mod end;
mod lines;
mod point_lines;
mod proof_fault;
mod range_lines;
mod store;
mod telling;
#[cfg(test)]
mod tests;

pub use end::VerifyEnd;
pub use lines::verify;
pub use telling::cause_text;
