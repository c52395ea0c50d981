// The command `get`: the value of a key in a store.
ghost use Rattle.std.specs.Prelude.{◌≤◌, ℕ, List, Option, IfOk, IfErr, option_map};
ghost use Rattle.bit_keys.specs.Branch.{width_of};
ghost use Rattle.run_model.specs.OutsideThings.{outside, disk_seen};
ghost use Rattle.run_model.specs.Command.{Get};
ghost use Rattle.run_model.specs.Get.{GetRuns};
ghost use Rattle.run_model.specs.Runs.{SharedRuns};
ghost use Rattle.mdb_tool.specs.Ends.{end_of};
ghost use Rattle.store_opening.specs.Opening.{KeepsMaps, FailsBy};
ghost use Rattle.mdb_tool.specs.MapReads.{Finds, IsValueAt};

use crate::status::Status;
use crate::store_faults::status_of_fault;
use bit_keys::Branch;
use disk_world::Disk;
use mdb_base::{Sink, write_all};
use mdb_core::At;
use script_run::value_line;
use std::alloc::Global;
use store_opening::open_store;

// The value of a key in the store of a disk.
fn look_up<D: Disk>(
    alloc: Global,
    branch: Branch,
    key: &[u8],
    disk: &mut D,
) -> Result<Option<Vec<u8>>, Status>
    ensures found { IfOk result (λ value. Finds (IsValueAt key.now (option_map (λ v. v.items) value)) (width_of branch) (disk_seen D.words disk.old) (disk_seen D.words disk.new)) }
    ensures fails { IfErr result (λ status. FailsBy (width_of branch) (disk_seen D.words disk.old) (disk_seen D.words disk.new) (end_of status)) }
    ensures opens { KeepsMaps (disk_seen D.words disk.old) (disk_seen D.words disk.new) }
    ensures later { D.words.faults disk.old ≤ D.words.faults disk.new }
{
    let mut db = match open_store(alloc, branch, disk) {
        Ok(db) => db,
        Err(fault) => return Err(status_of_fault(fault)),
    };
    let value = match db.get(alloc, disk, At::Store, key) {
        Ok(value) => value,
        Err(fault) => return Err(status_of_fault(fault)),
    };
    match db.close(disk) {
        Ok(()) => Ok(value),
        Err(fault) => Err(status_of_fault(fault)),
    }
}

/// Prints the value that a store has at a key. It is handed no input: its clauses hold of each one, which
/// is as it was.
pub(crate) fn run_get<K: Sink, D: Disk>(
    alloc: Global,
    branch: Branch,
    key: &[u8],
    out: &mut K,
    disk: &mut D,
) -> Status
    ensures shared { (left : Option (List ℕ)) (reads : ℕ) → let before = outside left reads (K.taken out.old) (K.faults out.old) (disk_seen D.words disk.old) in
        let after = outside left reads (K.taken out.new) (K.faults out.new) (disk_seen D.words disk.new) in
        SharedRuns (Get key.now) (width_of branch) before after (end_of result) }
    ensures get { (left : Option (List ℕ)) (reads : ℕ) → let before = outside left reads (K.taken out.old) (K.faults out.old) (disk_seen D.words disk.old) in
        let after = outside left reads (K.taken out.new) (K.faults out.new) (disk_seen D.words disk.new) in
        GetRuns key.now (width_of branch) before after (end_of result) }
{
    let value = match look_up(alloc, branch, key, disk) {
        Ok(value) => value,
        Err(status) => return status,
    };
    let Ok(line) = value_line(alloc, &value) else {
        return Status::NoMemory;
    };
    match write_all(out, line.as_bytes()) {
        Ok(()) => Status::Done,
        Err(_) => Status::Write,
    }
}
