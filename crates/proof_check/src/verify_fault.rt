ghost use Rattle.std.specs.Prelude.{◌≡◌};
ghost use Rattle.proof_check.specs.declared.verify_fault.VerifyFault.TheVariants.{NoMemory as no_memory};
ghost use Rattle.proof_check.specs.CheckResults.{of_source};

use bit_keys::Id;
use std::alloc::{AllocError, AllocFailed};
use thiserror::Error;
use trie_items::SourceFault;

/// Why a proof is not accepted. Nodes are counted from 0, those of the start path first and then
/// those of the end path.
#[derive(Clone, Copy, Debug, PartialEq, Eq, Error)]
pub enum VerifyFault {
    /// The key of the entry is not greater than the one before it.
    #[error("entry {0} out of order")]
    Unsorted(usize),
    /// The key of the entry is not in the range that was asked for.
    #[error("entry {0} outside the range")]
    Outside(usize),
    /// The key of the node does not strictly extend the one before it in its path.
    #[error("node {0} out of order")]
    PathOrder(usize),
    /// The node of the end path has the key of a node of the start path, and another content.
    #[error("node {0} differs from one with its key")]
    PathsDiffer(usize),
    /// The change of the entry changes nothing.
    #[error("entry {0} changes nothing")]
    Idle(usize),
    /// The proof has another root than the one that was asked for.
    #[error("another root")]
    RootDiffers { have: Id, want: Id },
    /// The source of the local pairs failed.
    #[error("the source failed")]
    Failed,
    /// There was no memory.
    #[error("out of memory")]
    NoMemory,
}

impl From<SourceFault> for VerifyFault {
    ghost from_gives = { λ fault e. e ≡ of_source fault };

    fn from(fault: SourceFault) -> VerifyFault {
        match fault {
            SourceFault::Failed => VerifyFault::Failed,
            SourceFault::NoMemory => VerifyFault::NoMemory,
        }
    }
}

impl From<mdb_base::NoMemory> for VerifyFault {
    ghost from_gives = { λ _ e. e ≡ no_memory };

    fn from(_error: mdb_base::NoMemory) -> VerifyFault {
        VerifyFault::NoMemory
    }
}

impl From<bit_keys::NoMemory> for VerifyFault {
    ghost from_gives = { λ _ e. e ≡ no_memory };

    fn from(_error: bit_keys::NoMemory) -> VerifyFault {
        VerifyFault::NoMemory
    }
}

impl From<AllocError> for VerifyFault {
    ghost from_gives = { λ _ e. e ≡ no_memory };

    fn from(_error: AllocError) -> VerifyFault {
        VerifyFault::NoMemory
    }
}

impl<T: Drop> From<AllocFailed<T>> for VerifyFault {
    ghost from_gives = { λ _ e. e ≡ no_memory };

    fn from(_error: AllocFailed<T>) -> VerifyFault {
        VerifyFault::NoMemory
    }
}
