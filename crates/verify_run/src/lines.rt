// All lines of an input.
ghost use Rattle.std.specs.Prelude.{◌≡◌, false, IfSome};
ghost use Rattle.run_model.specs.OutsideThings.{outside, disk_seen};
ghost use Rattle.run_model.specs.Command.{Verify};
ghost use Rattle.run_model.specs.Verify.{VerifyRuns};
ghost use Rattle.run_model.specs.Runs.{SharedRuns};
ghost use Rattle.bit_keys.specs.Branch.{width_of};
ghost use Rattle.mdb_core.specs.Stores.{is_failed};
ghost use Rattle.verify_run.specs.Ends.{end_of};
ghost use Rattle.verify_run.specs.declared.end.VerifyEnd.TheVariants.{Done as done};

use crate::checking::step;
use crate::end::{VerifyEnd, end_of_reader};
use crate::store::closed;
use batch_text::LineReader;
use bit_keys::Branch;
use disk_world::Disk;
use mdb_base::{Sink, Source};
use mdb_core::Db;
use run_model::{passed_lines_are_true, stored_maps_are_within};
use std::alloc::Global;

/// The most bytes of an input that are read.
const INPUT_LIMIT: usize = 1_073_741_824;

// Checks lines one after another, and keeps the store that one of them opened.
fn check_lines<S: Source, K: Sink, D: Disk>(
    alloc: Global,
    branch: Branch,
    input: &mut S,
    out: &mut K,
    store: &mut Option<Db>,
    disk: &mut D,
) -> VerifyEnd
    requires { store.old ≡ None }
    ensures shared { let before = outside (S.left input.old) (S.faults input.old) (K.taken out.old) (K.faults out.old) (disk_seen D.words disk.old) in
        let after = outside (S.left input.new) (S.faults input.new) (K.taken out.new) (K.faults out.new) (disk_seen D.words disk.new) in
        SharedRuns Verify (width_of branch) before after (end_of result) }
    ensures verify { let before = outside (S.left input.old) (S.faults input.old) (K.taken out.old) (K.faults out.old) (disk_seen D.words disk.old) in
        let after = outside (S.left input.new) (S.faults input.new) (K.taken out.new) (K.faults out.new) (disk_seen D.words disk.new) in
        VerifyRuns (width_of branch) before after (end_of result) }
    ensures works { result ≡ done → IfSome store.new (λ s. is_failed s ≡ false) }
{
    passed_lines_are_true();
    stored_maps_are_within();
    let mut reader = LineReader::new(alloc, INPUT_LIMIT);
    let mut number = 1u64;
    'lines: loop {
        match reader.advance(input) {
            Ok(true) => {}
            Ok(false) => return VerifyEnd::Done,
            Err(fault) => return end_of_reader(fault, number),
        }
        match step(alloc, branch, reader.line(), number, store, out, disk) {
            Ok(()) => {}
            Err(end) => return end,
        }
        number += 1;
    }
}

/// Reads lines that tell of proofs, checks each against the root that stands in it, and prints how many
/// pairs or changes it shows. Changes are checked against the map of the disk's store, too, which is opened at the first
/// line that tells of some, and closed at the end; it keeps its map.
pub fn verify<S: Source, K: Sink, D: Disk>(
    alloc: Global,
    branch: Branch,
    input: &mut S,
    out: &mut K,
    disk: &mut D,
) -> VerifyEnd
    ensures shared { let before = outside (S.left input.old) (S.faults input.old) (K.taken out.old) (K.faults out.old) (disk_seen D.words disk.old) in
        let after = outside (S.left input.new) (S.faults input.new) (K.taken out.new) (K.faults out.new) (disk_seen D.words disk.new) in
        SharedRuns Verify (width_of branch) before after (end_of result) }
    ensures verify { let before = outside (S.left input.old) (S.faults input.old) (K.taken out.old) (K.faults out.old) (disk_seen D.words disk.old) in
        let after = outside (S.left input.new) (S.faults input.new) (K.taken out.new) (K.faults out.new) (disk_seen D.words disk.new) in
        VerifyRuns (width_of branch) before after (end_of result) }
{
    let mut store = None;
    let end = check_lines(alloc, branch, input, out, &mut store, disk);
    closed(store, disk, end)
}
