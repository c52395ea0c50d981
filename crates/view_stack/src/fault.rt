use crate::ViewState;
use thiserror::Error;

/// Why a view is not made, or nothing is done with one. All views are as they were.
#[derive(Clone, Copy, Debug, PartialEq, Eq, Error)]
pub enum ViewFault {
    /// The number was never given.
    #[error("an unknown view")]
    Unknown,
    /// The view of this number is no longer live, and in this state.
    #[error("a view that is not live")]
    NotLive(ViewState),
    /// All 1,000,000 numbers were given.
    #[error("no number is left")]
    TooMany,
    /// The path of the view would go more than 64 numbers past that of the store.
    #[error("a view too far from the store")]
    TooDeep,
    /// The payloads of all live views would have more than 268,435,456 bytes.
    #[error("the live views are too heavy")]
    TooHeavy,
    /// There was no memory.
    #[error("out of memory")]
    NoMemory,
}
