// The faults of a store.
ghost use Rattle.std.specs.Prelude.{◌≡◌};
ghost use Rattle.mdb_core.specs.Faults.{fault_of, fault_of_view};

use thiserror::Error;
use value_store::ValueFault;
use view_stack::{ViewFault, ViewState};

/// Why a call on a store fails.
#[derive(Clone, Copy, Debug, PartialEq, Eq, Error)]
pub enum DbFault {
    /// The disk failed in this call.
    #[error("the disk failed")]
    Disk,
    /// That file has an open header of something else.
    #[error("file {0} is not a store's")]
    NotAStore(u8),
    /// The store has another branch factor than the one that was asked for.
    #[error("the branch factor is {kept} and not {asked}")]
    BranchDiffers { kept: u16, asked: u16 },
    /// The file has a wrong byte in its header at that place, or a gate there whose record, or whose
    /// batch, is outside the format.
    #[error("file {file} is damaged at {at}")]
    Damaged { file: u8, at: u64 },
    /// The disk failed in an earlier call on this store.
    #[error("the store failed before")]
    Failed,
    /// The number of the view was never given.
    #[error("an unknown view")]
    Unknown,
    /// The view is no longer live, and in this state.
    #[error("a view that is not live")]
    NotLive(ViewState),
    /// All 1,000,000 numbers were given.
    #[error("no number is left")]
    TooMany,
    /// The path of the view would go more than 64 numbers past that of the store.
    #[error("a view too far from the store")]
    TooDeep,
    /// The payloads of all live views would have more than 268,435,456 bytes.
    #[error("the live views are too heavy")]
    TooHeavy,
    /// The payload of a batch has so many bytes, which is more than 33,554,432.
    #[error("a payload of {0} bytes is too large")]
    TooLarge(u64),
    /// The view stands on another one that was not committed.
    #[error("the parent of the view is not the store")]
    NotParent,
    /// The store has no map with the root.
    #[error("no map with this root is held")]
    NotHeld,
    /// The store would have more than 1,000,000 pairs.
    #[error("the store is full")]
    Full,
    /// There was no memory.
    #[error("out of memory")]
    NoMemory,
}

/// A fault of the values, as the store tells it.
pub(crate) fn told(fault: ValueFault) -> DbFault
    ensures { result ≡ fault_of fault }
{
    match fault {
        ValueFault::Disk => DbFault::Disk,
        ValueFault::NotAStore(file) => DbFault::NotAStore(file),
        ValueFault::BranchDiffers { kept, asked } => DbFault::BranchDiffers { kept, asked },
        ValueFault::Damaged { file, at } => DbFault::Damaged { file, at },
        ValueFault::TooLarge(bytes) => DbFault::TooLarge(bytes),
        ValueFault::Full => DbFault::Full,
        ValueFault::Failed => DbFault::Failed,
        ValueFault::NoMemory => DbFault::NoMemory,
    }
}

/// A fault of the views, as the store tells it.
pub(crate) fn told_of_view(fault: ViewFault) -> DbFault
    ensures { result ≡ fault_of_view fault }
{
    match fault {
        ViewFault::Unknown => DbFault::Unknown,
        ViewFault::NotLive(state) => DbFault::NotLive(state),
        ViewFault::TooMany => DbFault::TooMany,
        ViewFault::TooDeep => DbFault::TooDeep,
        ViewFault::TooHeavy => DbFault::TooHeavy,
        ViewFault::NoMemory => DbFault::NoMemory,
    }
}
