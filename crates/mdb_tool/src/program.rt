// The top call.
ghost use Rattle.std.specs.Prelude.{map, string_bytes};
ghost use Rattle.run_model.specs.OutsideThings.{outside, disk_seen};
ghost use Rattle.run_model.specs.Outcome.{IsComplete};
ghost use Rattle.run_model.specs.Runs.{outcome, Needs, command_runs, TellsWords, WordsTouchNothing, ReadHasCause, WriteHasCause, DiskHasCause, StoreHasCause, InputLimitHasCause, TellsOwn, SharedRuns, RootPart, ApplyPart, GetPart, ProvePart, RangePart, ChangesPart, VerifyPart};
ghost use Rattle.bit_keys.specs.Branch.{width_of};
ghost use Rattle.mdb_tool.specs.Ends.{end_of};
ghost use Rattle.mdb_tool.specs.ReadJob.{seen_command};

use crate::apply_command::run_apply;
use crate::changes_command::{Asked as AskedChanges, run_changes};
use crate::get_command::run_get;
use crate::job::{Command, Job, read_words};
use crate::prove_command::run_prove;
use crate::range_command::{Asked, run_range};
use crate::root_command::run_root;
use crate::status::Status;
use crate::verify_command::run_verify;
use disk_world::Disk;
use mdb_base::{Sink, Source};
use std::alloc::Global;

/// Does what the words ask for: word 1 is a folder, or `-` where none is used, word 2 the command.
///
/// Where a clause speaks of what the source has left, of what the sink has taken or of what the disk
/// holds, it holds of things that tell it.
pub fn run<S: Source, K: Sink, D: Disk>(
    alloc: Global,
    words: &[String],
    input: &mut S,
    out: &mut K,
    disk: &mut D,
) -> Status
    // The first wrong word is told exactly where there is one, and then nothing outside is touched.
    ensures words { TellsWords (map string_bytes words.now) (end_of result) }
    ensures untouched { let before = outside (S.left input.old) (S.faults input.old) (K.taken out.old) (K.faults out.old) (disk_seen D.words disk.old) in
        let after = outside (S.left input.new) (S.faults input.new) (K.taken out.new) (K.faults out.new) (disk_seen D.words disk.new) in
        WordsTouchNothing before after (end_of result) }

    // The cause of each status that is one for all commands.
    ensures read { ReadHasCause (S.faults input.old) (S.faults input.new) (end_of result) }
    ensures write { WriteHasCause (K.faults out.old) (K.faults out.new) (end_of result) }
    ensures disk { DiskHasCause (D.words.faults disk.old) (D.words.faults disk.new) (end_of result) }
    ensures store { StoreHasCause (map string_bytes words.now) (disk_seen D.words disk.old) (end_of result) }
    ensures own { TellsOwn (map string_bytes words.now) (end_of result) }
    ensures limit { InputLimitHasCause (S.left input.old) (end_of result) }

    // Where nothing outside fails, the run comes to its outcome, or memory ran out.
    ensures complete { let before = outside (S.left input.old) (S.faults input.old) (K.taken out.old) (K.faults out.old) (disk_seen D.words disk.old) in
        let after = outside (S.left input.new) (S.faults input.new) (K.taken out.new) (K.faults out.new) (disk_seen D.words disk.new) in
        let given = map string_bytes words.now in
        IsComplete (Needs given) (outcome given) before after (end_of result) }

    // What the runs of each command promise besides.
    ensures root { let before = outside (S.left input.old) (S.faults input.old) (K.taken out.old) (K.faults out.old) (disk_seen D.words disk.old) in
        let after = outside (S.left input.new) (S.faults input.new) (K.taken out.new) (K.faults out.new) (disk_seen D.words disk.new) in
        RootPart (map string_bytes words.now) before after (end_of result) }
    ensures apply { let before = outside (S.left input.old) (S.faults input.old) (K.taken out.old) (K.faults out.old) (disk_seen D.words disk.old) in
        let after = outside (S.left input.new) (S.faults input.new) (K.taken out.new) (K.faults out.new) (disk_seen D.words disk.new) in
        ApplyPart (map string_bytes words.now) before after (end_of result) }
    ensures get { let before = outside (S.left input.old) (S.faults input.old) (K.taken out.old) (K.faults out.old) (disk_seen D.words disk.old) in
        let after = outside (S.left input.new) (S.faults input.new) (K.taken out.new) (K.faults out.new) (disk_seen D.words disk.new) in
        GetPart (map string_bytes words.now) before after (end_of result) }
    ensures prove { let before = outside (S.left input.old) (S.faults input.old) (K.taken out.old) (K.faults out.old) (disk_seen D.words disk.old) in
        let after = outside (S.left input.new) (S.faults input.new) (K.taken out.new) (K.faults out.new) (disk_seen D.words disk.new) in
        ProvePart (map string_bytes words.now) before after (end_of result) }
    ensures range { let before = outside (S.left input.old) (S.faults input.old) (K.taken out.old) (K.faults out.old) (disk_seen D.words disk.old) in
        let after = outside (S.left input.new) (S.faults input.new) (K.taken out.new) (K.faults out.new) (disk_seen D.words disk.new) in
        RangePart (map string_bytes words.now) before after (end_of result) }
    ensures changes { let before = outside (S.left input.old) (S.faults input.old) (K.taken out.old) (K.faults out.old) (disk_seen D.words disk.old) in
        let after = outside (S.left input.new) (S.faults input.new) (K.taken out.new) (K.faults out.new) (disk_seen D.words disk.new) in
        ChangesPart (map string_bytes words.now) before after (end_of result) }
    ensures verify { let before = outside (S.left input.old) (S.faults input.old) (K.taken out.old) (K.faults out.old) (disk_seen D.words disk.old) in
        let after = outside (S.left input.new) (S.faults input.new) (K.taken out.new) (K.faults out.new) (disk_seen D.words disk.new) in
        VerifyPart (map string_bytes words.now) before after (end_of result) }
{
    match read_words(words) {
        Ok(job) => run_job(alloc, job, input, out, disk),
        Err(place) => Status::BadWords(place),
    }
}

// Does a job, by the function of its command.
fn run_job<S: Source, K: Sink, D: Disk>(
    alloc: Global,
    job: Job,
    input: &mut S,
    out: &mut K,
    disk: &mut D,
) -> Status
    ensures shared { let before = outside (S.left input.old) (S.faults input.old) (K.taken out.old) (K.faults out.old) (disk_seen D.words disk.old) in
        let after = outside (S.left input.new) (S.faults input.new) (K.taken out.new) (K.faults out.new) (disk_seen D.words disk.new) in
        SharedRuns (seen_command job.command) (width_of job.branch) before after (end_of result) }
    ensures runs { let before = outside (S.left input.old) (S.faults input.old) (K.taken out.old) (K.faults out.old) (disk_seen D.words disk.old) in
        let after = outside (S.left input.new) (S.faults input.new) (K.taken out.new) (K.faults out.new) (disk_seen D.words disk.new) in
        command_runs (seen_command job.command) (width_of job.branch) before after (end_of result) }
{
    let Job { branch, command } = job;
    match command {
        Command::Root => run_root(alloc, branch, input, out),
        Command::Apply => run_apply(alloc, branch, input, out, disk),
        Command::Get(key) => run_get(alloc, branch, key.as_slice(), out, disk),
        Command::Prove(root, key) => run_prove(alloc, branch, root, key.as_slice(), out, disk),
        Command::Range {
            root,
            range,
            pairs,
            bytes,
        } => {
            let asked = Asked {
                root,
                range,
                pairs,
                bytes,
            };
            run_range(alloc, branch, &asked, out, disk)
        }
        Command::Changes {
            from,
            to,
            range,
            pairs,
            bytes,
        } => {
            let asked = AskedChanges {
                from,
                to,
                range,
                pairs,
                bytes,
            };
            run_changes(alloc, branch, &asked, out, disk)
        }
        Command::Verify => run_verify(alloc, branch, input, out, disk),
    }
}
