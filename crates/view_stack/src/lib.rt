//! Views: changes that are proposed on a store or on other views, until one is committed or closed.
//!
//! It stands on `mdb_base` for the batches and on the words of `view_model`. Its errors say why a view is not made, or
//! why nothing is done with one. It holds the batches of live views and a few words of every other view, reads no
//! store, and makes no map.
#![tactic(auto)]

mod adding;
mod admitting;
mod ending;
mod fault;
mod making;
mod slot;
mod stack;
mod state;
mod taking;
mod tree;
mod walking;

pub use fault::ViewFault;
pub(crate) use slot::{Kept, Slot};
pub use stack::ViewStack;
pub use state::{ViewId, ViewState};
pub(crate) use tree::Tree;

#[cfg(test)]
mod tests;
