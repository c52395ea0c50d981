// Answers that every layer above shares.
ghost use Rattle.std.specs.Prelude.{◌≡◌};

use std::alloc::{AllocError, AllocFailed};
use thiserror::Error;

/// There was no memory.
#[derive(Clone, Copy, Debug, PartialEq, Eq, Error)]
#[error("out of memory")]
pub struct NoMemory;

impl From<AllocError> for NoMemory {
    fn from(_error: AllocError) -> NoMemory {
        NoMemory
    }
}

impl<T: Drop> From<AllocFailed<T>> for NoMemory {
    fn from(_error: AllocFailed<T>) -> NoMemory {
        NoMemory
    }
}

/// Which limit of a run was passed.
#[derive(Clone, Copy, Debug, PartialEq, Eq)]
pub enum LimitKind {
    /// The bytes of input that one run reads, at most 1,073,741,824: it comes at one byte more.
    Input,
    /// The pairs that a store keeps, at most 1,000,000: it comes where there would be more.
    Pairs,
    /// The bytes of one batch, at most 33,554,432, and the numbers that batches are given: it comes
    /// where a batch has more bytes, or no number is left for it.
    Batch,
    /// The answers that one run accepts, at most 1,000,000: it comes at one more.
    Answers,
}
