// The command `range`: the proof of a range, in the map of a store that a root names.
ghost use Rattle.std.specs.Prelude.{◌≤◌, ℕ, List, Option, IfOk, IfErr, option_map, string_bytes};
ghost use Rattle.bit_keys.specs.Branch.{width_of};
ghost use Rattle.batch_text.specs.SeenLine.{seen_root};
ghost use Rattle.run_model.specs.OutsideThings.{outside, disk_seen};
ghost use Rattle.run_model.specs.Command.{Range as RangeOf};
ghost use Rattle.run_model.specs.Range.{RangeRuns, range_outcome};
ghost use Rattle.run_model.specs.Runs.{SharedRuns};
ghost use Rattle.mdb_tool.specs.Ends.{end_of};
ghost use Rattle.mdb_tool.specs.MapReads.{Finds, IsLineOf};
ghost use Rattle.store_opening.specs.Opening.{KeepsMaps, FailsBy};

use crate::status::Status;
use crate::store_faults::{status_of_fault, status_of_reading};
use batch_text::{RangeWord, RootWord};
use bit_keys::Branch;
use disk_world::Disk;
use mdb_base::{Sink, write_all};
use script_run::range_line;
use std::alloc::Global;
use store_opening::open_store;

/// What the words of the command ask for.
#[derive(Debug, Drop)]
pub(crate) struct Asked {
    pub(crate) root: RootWord,
    pub(crate) range: RangeWord,
    /// How many pairs may be listed.
    pub(crate) pairs: u32,
    /// How many bytes of them.
    pub(crate) bytes: u32,
}

// The line of the proof of a range in the store of a disk; None where the store has no map that the root names.
fn look_up<D: Disk>(
    alloc: Global,
    branch: Branch,
    asked: &Asked,
    disk: &mut D,
) -> Result<Option<String>, Status>
    ensures found { IfOk result (λ line. Finds (IsLineOf (range_outcome (width_of branch) (seen_root asked.now.root) asked.now.range asked.now.pairs asked.now.bytes) (option_map string_bytes line)) (width_of branch) (disk_seen D.words disk.old) (disk_seen D.words disk.new)) }
    ensures fails { IfErr result (λ status. FailsBy (width_of branch) (disk_seen D.words disk.old) (disk_seen D.words disk.new) (end_of status)) }
    ensures opens { KeepsMaps (disk_seen D.words disk.old) (disk_seen D.words disk.new) }
    ensures later { D.words.faults disk.old ≤ D.words.faults disk.new }
{
    let mut db = match open_store(alloc, branch, disk) {
        Ok(db) => db,
        Err(fault) => return Err(status_of_fault(fault)),
    };
    let range = match asked.range.to_range(alloc) {
        Ok(range) => range,
        Err(_) => return Err(Status::NoMemory),
    };
    let line = match range_line(
        alloc,
        &mut db,
        asked.root,
        &range,
        asked.pairs,
        asked.bytes,
        disk,
    ) {
        Ok(line) => line,
        Err(end) => return Err(status_of_reading(end)),
    };
    match db.close(disk) {
        Ok(()) => Ok(line),
        Err(fault) => Err(status_of_fault(fault)),
    }
}

/// Prints the proof of a range in the map of a store that a root names. It is handed no input: its clauses
/// hold of each one, which is as it was.
pub(crate) fn run_range<K: Sink, D: Disk>(
    alloc: Global,
    branch: Branch,
    asked: &Asked,
    out: &mut K,
    disk: &mut D,
) -> Status
    ensures shared { (left : Option (List ℕ)) (reads : ℕ) → let before = outside left reads (K.taken out.old) (K.faults out.old) (disk_seen D.words disk.old) in
        let after = outside left reads (K.taken out.new) (K.faults out.new) (disk_seen D.words disk.new) in
        SharedRuns (RangeOf (seen_root asked.now.root) asked.now.range asked.now.pairs asked.now.bytes) (width_of branch) before after (end_of result) }
    ensures range { (left : Option (List ℕ)) (reads : ℕ) → let before = outside left reads (K.taken out.old) (K.faults out.old) (disk_seen D.words disk.old) in
        let after = outside left reads (K.taken out.new) (K.faults out.new) (disk_seen D.words disk.new) in
        RangeRuns (seen_root asked.now.root) asked.now.range asked.now.pairs asked.now.bytes (width_of branch) before after (end_of result) }
{
    let line = match look_up(alloc, branch, asked, disk) {
        Ok(Some(line)) => line,
        Ok(None) => return Status::NotHeld,
        Err(status) => return status,
    };
    match write_all(out, line.as_bytes()) {
        Ok(()) => Status::Done,
        Err(_) => Status::Write,
    }
}
