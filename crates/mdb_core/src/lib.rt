//! The store: a map on a disk with its root, changed by batches, and views on it.
//!
//! It stands on `value_store` for the values, on `view_stack` for the views and on `map_root` for the
//! roots. Its errors are those of these, and `NotParent`. In this form it keeps the digest of each value
//! in memory and makes the root of a whole map at each batch and at each view.
#![tactic(auto)]

mod applying;
mod committing;
mod digests;
mod fault;
mod naming;
mod opening;
mod proposing;
mod reading;
mod recalling;
mod recording;
mod source;
mod spot;
mod store;
#[cfg(test)]
mod tests;
mod writing;

pub use change_history::{HistoryFault, Taken};
pub use digests::{Digests, KeyBytes};
pub use fault::DbFault;
pub use source::DbSource;
pub use spot::{Past, Proposal, Spot};
pub use store::{At, Config, Db};
pub use view_stack::{ViewId, ViewState};
