// How a script ends, and what a fault of the store makes of it.
ghost use Rattle.std.specs.Prelude.{◌≡◌};
ghost use Rattle.script_run.specs.Ends.{fault_end};
ghost use Rattle.script_run.specs.declared.end.SessionEnd.TheVariants.{NoMemory as no_memory};

use mdb_base::LimitKind;
use mdb_core::DbFault;
use std::alloc::AllocError;

/// How a script ends.
#[derive(Clone, Copy, Debug, PartialEq, Eq)]
pub enum SessionEnd {
    /// All lines were done, and the input was read to its end.
    Done,
    /// The line of this number, counted from 1, is the first outside the grammar.
    BadLine(u64),
    /// A count reached its limit.
    Limit(LimitKind),
    /// A read of the store met bytes outside the format.
    Damaged { file: u8, at: u64 },
    /// The input could not be read.
    Read,
    /// The output could not be written.
    Write,
    /// The disk failed.
    Disk,
    /// There was no memory.
    NoMemory,
}

impl From<AllocError> for SessionEnd {
    ghost from_gives = { λ _ e. e ≡ no_memory };

    fn from(_error: AllocError) -> SessionEnd {
        SessionEnd::NoMemory
    }
}

/// The end that a fault of the store makes, where no line is refused for it. A direct commit is never
/// refused, and the other faults come only of an opening, or of a store that failed before.
pub(crate) fn end_of_fault(fault: DbFault) -> SessionEnd
    ensures { result ≡ fault_end fault }
{
    match fault {
        DbFault::TooMany | DbFault::TooLarge(_) => SessionEnd::Limit(LimitKind::Batch),
        DbFault::Full => SessionEnd::Limit(LimitKind::Pairs),
        DbFault::Damaged { file, at } => SessionEnd::Damaged { file, at },
        DbFault::NoMemory => SessionEnd::NoMemory,
        DbFault::Disk
        | DbFault::Failed
        | DbFault::NotAStore(_)
        | DbFault::BranchDiffers { .. }
        | DbFault::Unknown
        | DbFault::NotLive(_)
        | DbFault::TooDeep
        | DbFault::TooHeavy
        | DbFault::NotParent
        | DbFault::NotHeld => SessionEnd::Disk,
    }
}
