// What is kept of a view that was made.
use crate::ViewState;
use mdb_base::Batch;

/// The state of a view, with its changes as long as it is live.
#[derive(Drop)]
pub(crate) enum Kept {
    Live(Box<Batch>),
    Committed,
    Invalid,
    Closed,
}

/// A view, with its place among the live ones. It is named by its number, and 0 stands for none.
#[derive(Drop)]
pub(crate) struct Slot {
    /// The view on which it was made; 0 for the store before its first commit.
    pub(crate) parent: u32,
    /// The live view of the highest number that was made on it, while it is live.
    pub(crate) first: u32,
    /// Of the live views that were made on its parent, the one of the next lower number, while it is live.
    pub(crate) next: u32,
    /// And the one of the next higher number.
    pub(crate) prev: u32,
    pub(crate) kept: Kept,
}
