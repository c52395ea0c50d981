ghost use Rattle.std.specs.Prelude.{◌≡◌};
ghost use Rattle.proof_check.specs.declared.wire_fault.WireKind.TheVariants.{NoMemory as no_memory};

use mdb_base::VarintFault;
use std::alloc::{AllocError, AllocFailed};
use thiserror::Error;

/// What is wrong with a field.
#[derive(Clone, Copy, Debug, PartialEq, Eq, Error)]
pub enum WireKind {
    /// It is no varint, and runs past the end.
    #[error("a field that runs past the end")]
    Short,
    /// It is a varint that is not read, also where it runs past the end.
    #[error("{0}")]
    Varint(VarintFault),
    /// The first byte is no version that is known.
    #[error("another version")]
    Version,
    /// The second byte is another kind than the one that is read.
    #[error("another kind")]
    Kind,
    /// A flag is neither 0 nor 1.
    #[error("no flag")]
    Flag,
    /// A key of pairs has more than 256 bytes, a bound more than 257, or the key of a node more than
    /// 2,048 bits.
    #[error("a key too long")]
    LongKey,
    /// A value has more than 262,144 bytes.
    #[error("a value too long")]
    LongValue,
    /// A digest has more than 32 bytes.
    #[error("a digest too long")]
    LongDigest,
    /// The bits of a node's key are no whole number of tokens, and not too many.
    #[error("a key of no whole tokens")]
    Tokens,
    /// Unused bits behind a key are not zero.
    #[error("padding that is not zero")]
    Padding,
    /// An index is not below the factor.
    #[error("an index too large")]
    Index,
    /// An index is below the factor, and not greater than the one before.
    #[error("an index out of order")]
    Order,
    /// The end of a range is below its start.
    #[error("an end below the start")]
    Bounds,
    /// A number of a request is outside its limits.
    #[error("a number outside its limits")]
    Limits,
    /// Bytes stand after the last field.
    #[error("bytes after the last field")]
    Trailing,
    /// There was no memory. The place beside it says nothing.
    #[error("out of memory")]
    NoMemory,
}

impl WireKind {
    /// The fault of the field at this place.
    pub(crate) fn at(self, place: usize) -> WireFault
        ensures { result ≡ record { at = place; kind = self } }
    {
        WireFault {
            at: place,
            kind: self,
        }
    }
}

/// Why bytes are not read: the first field outside the grammar, by the place of its first byte.
#[derive(Clone, Copy, Debug, PartialEq, Eq, Error)]
#[error("{kind} at {at}")]
pub struct WireFault {
    pub at: usize,
    pub kind: WireKind,
}

impl WireFault {
    /// The answer where there is no memory.
    fn no_memory() -> WireFault
        ensures { result.kind ≡ no_memory }
    {
        WireKind::NoMemory.at(0)
    }
}

impl From<mdb_base::NoMemory> for WireFault {
    ghost from_gives = { λ _ e. e.kind ≡ no_memory };

    fn from(_error: mdb_base::NoMemory) -> WireFault {
        WireFault::no_memory()
    }
}

impl From<bit_keys::NoMemory> for WireFault {
    ghost from_gives = { λ _ e. e.kind ≡ no_memory };

    fn from(_error: bit_keys::NoMemory) -> WireFault {
        WireFault::no_memory()
    }
}

impl From<AllocError> for WireFault {
    ghost from_gives = { λ _ e. e.kind ≡ no_memory };

    fn from(_error: AllocError) -> WireFault {
        WireFault::no_memory()
    }
}

impl<T: Drop> From<AllocFailed<T>> for WireFault {
    ghost from_gives = { λ _ e. e.kind ≡ no_memory };

    fn from(_error: AllocFailed<T>) -> WireFault {
        WireFault::no_memory()
    }
}
