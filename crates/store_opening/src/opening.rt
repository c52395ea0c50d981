// Opening the store of a disk.
ghost use Rattle.std.specs.Prelude.{◌≤◌, IfOk, IfErr};
ghost use Rattle.bit_keys.specs.Branch.{width_of};
ghost use Rattle.run_model.specs.OutsideThings.{disk_seen};
ghost use Rattle.store_opening.specs.Opening.{KeepsMaps, IsOpen, FailsBy, end_of_fault};

use bit_keys::Branch;
use disk_world::Disk;
use mdb_core::{Config, Db, DbFault};
use std::alloc::Global;

/// How a store is kept while a run uses it.
const CONFIG: Config = Config {
    cache: 4096,
    commits: 64,
    weight: 268_435_456,
};

/// Opens the store of a disk, and makes it where there is none. Where it is not opened, the fault is that of
/// `Db::open`.
pub fn open_store<D: Disk>(alloc: Global, branch: Branch, disk: &mut D) -> Result<Db, DbFault>
    ensures opened { IfOk result (IsOpen (width_of branch) (disk_seen D.words disk.old) (disk_seen D.words disk.new)) }
    ensures fails { IfErr result (λ fault. FailsBy (width_of branch) (disk_seen D.words disk.old) (disk_seen D.words disk.new) (end_of_fault fault)) }
    ensures opens { KeepsMaps (disk_seen D.words disk.old) (disk_seen D.words disk.new) }
    ensures later { D.words.faults disk.old ≤ D.words.faults disk.new }
{
    Db::open(alloc, disk, branch, CONFIG)
}
