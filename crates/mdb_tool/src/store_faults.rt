// The statuses with which a run ends by its store.
ghost use Rattle.std.specs.Prelude.{◌≡◌};
ghost use Rattle.store_opening.specs.Opening.{end_of_fault};
ghost use Rattle.mdb_tool.specs.Ends.{end_of, end_of_reading};

use crate::status::Status;
use mdb_core::DbFault;
use script_run::SessionEnd;

/// The status with which a run ends where its store is not opened or read.
pub(crate) fn status_of_fault(fault: DbFault) -> Status
    ensures { end_of result ≡ end_of_fault fault }
{
    match fault {
        DbFault::Disk => Status::Disk,
        DbFault::NotAStore(file) => Status::NotAStore(file),
        DbFault::BranchDiffers { kept, asked } => Status::BranchDiffers { kept, asked },
        DbFault::Damaged { file, at } => Status::Damaged { file, at },
        DbFault::NoMemory => Status::NoMemory,
        // These come from no opening and no look-up in a store that works.
        DbFault::Failed
        | DbFault::Unknown
        | DbFault::NotLive(_)
        | DbFault::NotHeld
        | DbFault::TooMany
        | DbFault::TooDeep
        | DbFault::TooHeavy
        | DbFault::TooLarge(_)
        | DbFault::NotParent
        | DbFault::Full => Status::NoMemory,
    }
}

/// The status with which a run ends that could not read the store.
pub(crate) fn status_of_reading(end: SessionEnd) -> Status
    ensures { end_of result ≡ end_of_reading end }
{
    match end {
        SessionEnd::Disk => Status::Disk,
        _ => Status::NoMemory,
    }
}
