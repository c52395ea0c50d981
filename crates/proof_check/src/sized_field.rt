ghost use Rattle.std.specs.Prelude.{◌≡◌, Some};
ghost use Rattle.proof_check.specs.ReaderAnswers.{seen_kind, size_limit, size_fault};

use crate::wire_fault::WireKind;
use mdb_base::{KEY_LIMIT, VALUE_LIMIT};

/// What stands behind its length in bytes, by what it may be too long for.
#[derive(Clone, Copy)]
pub(crate) enum SizedField {
    /// The key of a pair.
    Key,
    Value,
    Digest,
}

impl SizedField {
    /// The most bytes.
    pub(crate) fn limit(self) -> u64
        ensures { result ≡ size_limit self }
    {
        match self {
            SizedField::Key => KEY_LIMIT as u64,
            SizedField::Value => VALUE_LIMIT as u64,
            SizedField::Digest => 32,
        }
    }

    /// What is wrong where there are more.
    pub(crate) fn fault(self) -> WireKind
        ensures { seen_kind result ≡ Some (size_fault self) }
    {
        match self {
            SizedField::Key => WireKind::LongKey,
            SizedField::Value => WireKind::LongValue,
            SizedField::Digest => WireKind::LongDigest,
        }
    }
}
