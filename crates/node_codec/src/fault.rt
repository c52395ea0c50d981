ghost use Rattle.std.specs.Prelude.{◌≡◌};
ghost use Rattle.node_codec.specs.declared.fault.NodeFault.TheVariants.{NoMemory as no_memory};

use mdb_base::NoMemory;
use std::alloc::{AllocError, AllocFailed};
use thiserror::Error;

/// Why bytes are no stored node: the first field outside the grammar, by the place of its first byte.
#[derive(Clone, Copy, Debug, PartialEq, Eq, Error)]
pub enum NodeFault {
    /// A field that is no varint runs past the end.
    #[error("the field at {0} runs past the end")]
    Short(usize),
    /// A flag is neither 0 nor 1.
    #[error("no flag at {0}")]
    BadFlag(usize),
    /// A varint is not read, also where it runs past the end.
    #[error("no number at {0}")]
    BadVarint(usize),
    /// An index is not greater than the one before.
    #[error("an index out of order at {0}")]
    Order(usize),
    /// Unused bits behind a rest are not zero.
    #[error("the bits at {0} have padding that is not zero")]
    Padding(usize),
    /// An index is not below the factor.
    #[error("an index too large at {0}")]
    Index(usize),
    /// A digest has more than 32 bytes.
    #[error("a digest too long at {0}")]
    LongDigest(usize),
    /// The bits of a rest are no whole number of tokens, or more than 2,048.
    #[error("a rest of wrong length at {0}")]
    Rest(usize),
    /// Bytes stand after the last field.
    #[error("bytes after the node at {0}")]
    Trailing(usize),
    /// There was no memory.
    #[error("out of memory")]
    NoMemory,
}

impl From<NoMemory> for NodeFault {
    ghost from_gives = { λ _ e. e ≡ no_memory };

    fn from(_error: NoMemory) -> NodeFault {
        NodeFault::NoMemory
    }
}

impl From<bit_keys::NoMemory> for NodeFault {
    ghost from_gives = { λ _ e. e ≡ no_memory };

    fn from(_error: bit_keys::NoMemory) -> NodeFault {
        NodeFault::NoMemory
    }
}

impl From<AllocError> for NodeFault {
    ghost from_gives = { λ _ e. e ≡ no_memory };

    fn from(_error: AllocError) -> NodeFault {
        NodeFault::NoMemory
    }
}

impl<T: Drop> From<AllocFailed<T>> for NodeFault {
    ghost from_gives = { λ _ e. e ≡ no_memory };

    fn from(_error: AllocFailed<T>) -> NodeFault {
        NodeFault::NoMemory
    }
}
