ghost use Rattle.std.specs.Prelude.{◌≡◌};
ghost use Rattle.trie_items.specs.declared.item_fault.ItemFault.TheVariants.{NoMemory as no_memory};

use std::alloc::{AllocError, AllocFailed};
use thiserror::Error;

/// Why an item does not enter a list, which is as it was.
#[derive(Clone, Copy, Debug, PartialEq, Eq, Error)]
pub enum ItemFault {
    /// Its key or slot is not above all that are there, or lies in the slot of a stub.
    #[error("an item out of order")]
    Order,
    /// There was no memory.
    #[error("out of memory")]
    NoMemory,
}

impl From<AllocError> for ItemFault {
    ghost from_gives = { λ _ e. e ≡ no_memory };

    fn from(_error: AllocError) -> ItemFault {
        ItemFault::NoMemory
    }
}

impl<T: Drop> From<AllocFailed<T>> for ItemFault {
    ghost from_gives = { λ _ e. e ≡ no_memory };

    fn from(_error: AllocFailed<T>) -> ItemFault {
        ItemFault::NoMemory
    }
}
