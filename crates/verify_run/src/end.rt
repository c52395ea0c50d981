ghost use Rattle.std.specs.Prelude.{◌≡◌};
ghost use Rattle.verify_run.specs.declared.end.VerifyEnd.TheVariants.{NoMemory as no_memory};
ghost use Rattle.verify_run.specs.Ends.{reader_end};

use batch_text::ReaderFault;
use mdb_core::DbFault;
use proof_check::Refusal;
use std::alloc::AllocError;

/// How the lines of an input end.
#[derive(Clone, Copy, Debug, PartialEq, Eq)]
pub enum VerifyEnd {
    /// Every line passed, and the input was read to its end.
    Done,
    /// The line of this number, counted from 1, is the first outside the grammar.
    BadLine(u64),
    /// The line of this number is the first whose proof is refused.
    Refused { line: u64, cause: Refusal },
    /// The store is not opened at the first line that tells of changes, or not read, and this is why.
    Store(DbFault),
    /// The input goes past its limit.
    Limit,
    /// The input could not be read.
    Read,
    /// The output could not be written.
    Write,
    /// There was no memory.
    NoMemory,
}

impl From<AllocError> for VerifyEnd {
    ghost from_gives = { λ _ e. e ≡ no_memory };

    fn from(_error: AllocError) -> VerifyEnd {
        VerifyEnd::NoMemory
    }
}

/// The end that a fault of the reader makes at the line of this number.
pub(crate) fn end_of_reader(fault: ReaderFault, number: u64) -> VerifyEnd
    ensures { result ≡ reader_end number fault }
{
    match fault {
        ReaderFault::Read => VerifyEnd::Read,
        ReaderFault::Limit => VerifyEnd::Limit,
        ReaderFault::Overlong => VerifyEnd::BadLine(number),
        ReaderFault::NoMemory => VerifyEnd::NoMemory,
    }
}
