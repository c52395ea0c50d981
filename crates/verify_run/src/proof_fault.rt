// Why a proof shows nothing, whatever form it has.
ghost use Rattle.std.specs.Prelude.{◌≡◌};
ghost use Rattle.verify_run.specs.Checks.{wire_fault, check_fault, end_at};

use crate::end::VerifyEnd;
use mdb_core::DbFault;
use proof_check::{Refusal, VerifyFault, WireFault, WireKind};

/// Why a proof shows nothing.
pub(crate) enum ProofFault {
    /// It is refused.
    Refused(Refusal),
    /// The store against whose map it is checked is not opened, or not read.
    Store(DbFault),
    /// There was no memory.
    NoMemory,
}

/// What becomes of a proof whose bytes are not read.
pub(crate) fn fault_of_wire(fault: WireFault) -> ProofFault
    ensures { result ≡ wire_fault fault.kind fault }
{
    match fault.kind {
        WireKind::NoMemory => ProofFault::NoMemory,
        _ => ProofFault::Refused(Refusal::Wire(fault)),
    }
}

/// What becomes of a proof that is not accepted.
pub(crate) fn fault_of_check(fault: VerifyFault) -> ProofFault
    ensures { result ≡ check_fault fault }
{
    match fault {
        VerifyFault::NoMemory => ProofFault::NoMemory,
        VerifyFault::Failed => ProofFault::Store(DbFault::Disk),
        _ => ProofFault::Refused(Refusal::Verify(fault)),
    }
}

/// How a run ends at the line of this number whose proof shows nothing.
pub(crate) fn end_of_proof(fault: ProofFault, number: u64) -> VerifyEnd
    ensures { result ≡ end_at number fault }
{
    match fault {
        ProofFault::Refused(cause) => VerifyEnd::Refused {
            line: number,
            cause,
        },
        ProofFault::Store(fault) => VerifyEnd::Store(fault),
        ProofFault::NoMemory => VerifyEnd::NoMemory,
    }
}
