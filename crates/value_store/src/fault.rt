use thiserror::Error;

/// Why a call on a value store fails.
#[derive(Clone, Copy, Debug, PartialEq, Eq, Error)]
pub enum ValueFault {
    /// The disk failed in this call.
    #[error("the disk failed")]
    Disk,
    /// That file has an open header of something else.
    #[error("file {0} is not a store's")]
    NotAStore(u8),
    /// The store has another branch factor than the one that was asked for.
    #[error("the branch factor is {kept} and not {asked}")]
    BranchDiffers { kept: u16, asked: u16 },
    /// The file has a wrong byte in its header at that place, or a gate there whose record, or whose
    /// batch, is outside the format.
    #[error("file {file} is damaged at {at}")]
    Damaged { file: u8, at: u64 },
    /// The payload of a batch has so many bytes, which is more than 33,554,432.
    #[error("a payload of {0} bytes is too large")]
    TooLarge(u64),
    /// The store would have more than 1,000,000 pairs.
    #[error("the store is full")]
    Full,
    /// The disk failed in an earlier call on this store.
    #[error("the store failed before")]
    Failed,
    /// There was no memory.
    #[error("out of memory")]
    NoMemory,
}
