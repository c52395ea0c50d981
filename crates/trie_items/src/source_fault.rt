ghost use Rattle.std.specs.Prelude.{◌≡◌};
ghost use Rattle.trie_items.specs.declared.source_fault.SourceFault.TheVariants.{NoMemory as no_memory};

use std::alloc::{AllocError, AllocFailed};
use thiserror::Error;

/// Why a source gives no answer.
#[derive(Clone, Copy, Debug, PartialEq, Eq, Error)]
pub enum SourceFault {
    /// What the source stands on failed, in this call or before it.
    #[error("the source failed")]
    Failed,
    /// There was no memory.
    #[error("out of memory")]
    NoMemory,
}

impl From<mdb_base::NoMemory> for SourceFault {
    ghost from_gives = { λ _ e. e ≡ no_memory };

    fn from(_error: mdb_base::NoMemory) -> SourceFault {
        SourceFault::NoMemory
    }
}

impl From<bit_keys::NoMemory> for SourceFault {
    ghost from_gives = { λ _ e. e ≡ no_memory };

    fn from(_error: bit_keys::NoMemory) -> SourceFault {
        SourceFault::NoMemory
    }
}

impl From<AllocError> for SourceFault {
    ghost from_gives = { λ _ e. e ≡ no_memory };

    fn from(_error: AllocError) -> SourceFault {
        SourceFault::NoMemory
    }
}

impl<T: Drop> From<AllocFailed<T>> for SourceFault {
    ghost from_gives = { λ _ e. e ≡ no_memory };

    fn from(_error: AllocFailed<T>) -> SourceFault {
        SourceFault::NoMemory
    }
}
