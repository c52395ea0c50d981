//! Scripts on a store: their lines are read one after another, done, and told.
//!
//! It stands on `mdb_core` for the store and on `batch_text` for the lines. `SessionEnd` says how a
//! script ends; the words are those of `session_model` and `run_model`. The line of a value and those of
//! proofs can be had alone.
#![tactic(auto)]

mod changing;
mod committing;
mod end;
mod line_step;
mod pending;
mod proving;
mod script;
mod telling;
mod viewing;

pub use changing::changes_line;
pub use end::SessionEnd;
pub use proving::{proof_line, range_line};
pub use script::session;
pub use telling::value_line;

#[cfg(test)]
mod tests;
