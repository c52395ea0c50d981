// The command `apply`: a script on a store.
ghost use Rattle.std.specs.Prelude.{◌≡◌, true};
ghost use Rattle.bit_keys.specs.Branch.{width_of};
ghost use Rattle.mdb_core.specs.Stores.{is_failed};
ghost use Rattle.run_model.specs.OutsideThings.{outside, disk_seen};
ghost use Rattle.run_model.specs.Command.{Apply};
ghost use Rattle.run_model.specs.Apply.{ApplyRuns};
ghost use Rattle.run_model.specs.Runs.{SharedRuns};
ghost use Rattle.script_run.specs.Ends.{end_of as end_of_script};
ghost use Rattle.mdb_tool.specs.Ends.{end_of};

use crate::status::Status;
use crate::store_faults::status_of_fault;
use bit_keys::Branch;
use disk_world::Disk;
use mdb_base::{Sink, Source};
use mdb_core::Db;
use script_run::{SessionEnd, session};
use std::alloc::Global;
use store_opening::open_store;

// The status with which a run ends whose script ends so.
fn status_of_end(end: SessionEnd) -> Status
    ensures { end_of result ≡ end_of_script end }
{
    match end {
        SessionEnd::Done => Status::Done,
        SessionEnd::BadLine(number) => Status::BadLine(number),
        SessionEnd::Limit(kind) => Status::Limit(kind),
        SessionEnd::Damaged { file, at } => Status::Damaged { file, at },
        SessionEnd::Read => Status::Read,
        SessionEnd::Write => Status::Write,
        SessionEnd::Disk => Status::Disk,
        SessionEnd::NoMemory => Status::NoMemory,
    }
}

// Closes the store of a run that ends so. Where that fails, no work is told as done.
fn close_store<D: Disk>(db: Db, disk: &mut D, status: Status) -> Status
    requires { is_failed db ≡ true → status ≡ Status.Disk }
    ensures status { result ≡ status }
    ensures disk { disk.new ≡ disk.old }
{
    match (db.close(disk), status) {
        (Err(_), Status::Done) => Status::Disk,
        (_, status) => status,
    }
}

/// Opens the store of a disk, does the lines of the input on it, and prints what each of them tells.
pub(crate) fn run_apply<S: Source, K: Sink, D: Disk>(
    alloc: Global,
    branch: Branch,
    input: &mut S,
    out: &mut K,
    disk: &mut D,
) -> Status
    ensures shared { let before = outside (S.left input.old) (S.faults input.old) (K.taken out.old) (K.faults out.old) (disk_seen D.words disk.old) in
        let after = outside (S.left input.new) (S.faults input.new) (K.taken out.new) (K.faults out.new) (disk_seen D.words disk.new) in
        SharedRuns Apply (width_of branch) before after (end_of result) }
    ensures apply { let before = outside (S.left input.old) (S.faults input.old) (K.taken out.old) (K.faults out.old) (disk_seen D.words disk.old) in
        let after = outside (S.left input.new) (S.faults input.new) (K.taken out.new) (K.faults out.new) (disk_seen D.words disk.new) in
        ApplyRuns (width_of branch) before after (end_of result) }
{
    let mut db = match open_store(alloc, branch, disk) {
        Ok(db) => db,
        Err(fault) => return status_of_fault(fault),
    };
    let end = session(alloc, &mut db, input, out, disk);
    close_store(db, disk, status_of_end(end))
}
