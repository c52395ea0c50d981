// The command `verify`: whether the proofs of an input are accepted.
ghost use Rattle.std.specs.Prelude.{◌≡◌};
ghost use Rattle.bit_keys.specs.Branch.{width_of};
ghost use Rattle.run_model.specs.OutsideThings.{outside, disk_seen};
ghost use Rattle.run_model.specs.Command.{Verify};
ghost use Rattle.run_model.specs.Verify.{VerifyRuns};
ghost use Rattle.run_model.specs.Runs.{SharedRuns};
ghost use Rattle.verify_run.specs.Ends.{end_of as end_of_lines};
ghost use Rattle.mdb_tool.specs.Ends.{end_of};

use crate::status::Status;
use crate::store_faults::status_of_fault;
use bit_keys::Branch;
use disk_world::Disk;
use mdb_base::{LimitKind, Sink, Source};
use std::alloc::Global;
use verify_run::{VerifyEnd, verify};

// The status with which a run ends, by how its lines ended.
fn status_of(end: VerifyEnd) -> Status
    ensures { end_of result ≡ end_of_lines end }
{
    match end {
        VerifyEnd::Done => Status::Done,
        VerifyEnd::BadLine(number) => Status::BadLine(number),
        VerifyEnd::Refused { line, cause } => Status::VerifyRefused { line, cause },
        VerifyEnd::Store(fault) => status_of_fault(fault),
        VerifyEnd::Limit => Status::Limit(LimitKind::Input),
        VerifyEnd::Read => Status::Read,
        VerifyEnd::Write => Status::Write,
        VerifyEnd::NoMemory => Status::NoMemory,
    }
}

/// Checks the proofs of an input, and prints how many pairs or changes each shows. Changes are checked against the
/// map of the disk's store, too, which is opened where lines come to some.
pub(crate) fn run_verify<S: Source, K: Sink, D: Disk>(
    alloc: Global,
    branch: Branch,
    input: &mut S,
    out: &mut K,
    disk: &mut D,
) -> Status
    ensures shared { let before = outside (S.left input.old) (S.faults input.old) (K.taken out.old) (K.faults out.old) (disk_seen D.words disk.old) in
        let after = outside (S.left input.new) (S.faults input.new) (K.taken out.new) (K.faults out.new) (disk_seen D.words disk.new) in
        SharedRuns Verify (width_of branch) before after (end_of result) }
    ensures verify { let before = outside (S.left input.old) (S.faults input.old) (K.taken out.old) (K.faults out.old) (disk_seen D.words disk.old) in
        let after = outside (S.left input.new) (S.faults input.new) (K.taken out.new) (K.faults out.new) (disk_seen D.words disk.new) in
        VerifyRuns (width_of branch) before after (end_of result) }
{
    status_of(verify(alloc, branch, input, out, disk))
}
