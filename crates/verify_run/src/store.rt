// The store against whose map changes are checked.
ghost use Rattle.std.specs.Prelude.{◌≡◌, ◌≤◌, false, IfOk, IfErr, IfSome};
ghost use Rattle.bit_keys.specs.Branch.{width_of};
ghost use Rattle.mdb_core.specs.Stores.{is_failed};
ghost use Rattle.run_model.specs.OutsideThings.{DiskSeen, disk_seen};
ghost use Rattle.store_opening.specs.Opening.{KeepsMaps, FailsBy, end_of_fault};
ghost use Rattle.verify_run.specs.LocalStores.{IsLocal, IsOpened};
ghost use Rattle.verify_run.specs.declared.end.VerifyEnd.TheVariants.{Done as done};

use crate::end::VerifyEnd;
use bit_keys::Branch;
use disk_world::Disk;
use mdb_core::{Db, DbFault};
use std::alloc::Global;
use store_opening::open_store;

/// The store of a disk, which is opened unless it was.
pub(crate) fn opened<D: Disk>(
    alloc: Global,
    branch: Branch,
    store: Option<Db>,
    disk: &mut D,
) -> Result<Db, DbFault>
    ensures opened { (before : DiskSeen) → IsLocal (width_of branch) before (disk_seen D.words disk.old) store → IfOk result (IsOpened (width_of branch) before (disk_seen D.words disk.new)) }
    ensures fails { (before : DiskSeen) → IsLocal (width_of branch) before (disk_seen D.words disk.old) store → IfErr result (λ fault. FailsBy (width_of branch) before (disk_seen D.words disk.new) (end_of_fault fault)) }
    ensures opens { (before : DiskSeen) → IsLocal (width_of branch) before (disk_seen D.words disk.old) store → KeepsMaps before (disk_seen D.words disk.new) }
    ensures later { D.words.faults disk.old ≤ D.words.faults disk.new }
{
    match store {
        Some(db) => Ok(db),
        None => open_store(alloc, branch, disk),
    }
}

/// Ends the use of a store, where one was opened, at the end of the lines. It writes nothing. A fault takes the
/// place of a finished end alone.
pub(crate) fn closed<D: Disk>(store: Option<Db>, disk: &mut D, end: VerifyEnd) -> VerifyEnd
    ensures end { (end ≡ done → IfSome store (λ s. is_failed s ≡ false)) → result ≡ end }
    ensures disk { disk.new ≡ disk.old }
{
    let Some(db) = store else {
        return end;
    };
    match end {
        VerifyEnd::NoMemory | VerifyEnd::Store(_) => end,
        VerifyEnd::Done => match db.close(disk) {
            Ok(()) => end,
            Err(fault) => VerifyEnd::Store(fault),
        },
        _ => {
            let _ = db.close(disk);
            end
        }
    }
}
