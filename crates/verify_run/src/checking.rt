// What a line of proofs comes to.
ghost use Rattle.std.specs.Prelude.{◌≡◌, ◌≤◌, ℕ, false, List, Result, Ok, IfOk, IfErr, OnOk, string_bytes};
ghost use Rattle.base_model.specs.Faults.{TellsAlike};
ghost use Rattle.text_model.specs.ReadLine.{Verify, read_line as line_of};
ghost use Rattle.trie_model.specs.Maps.{Map};
ghost use Rattle.store_model.specs.Refusals.{Refusal};
ghost use Rattle.run_model.specs.OutsideThings.{DiskSeen, disk_seen};
ghost use Rattle.run_model.specs.Verify.{Fault, read_verdict, tells_changes};
ghost use Rattle.bit_keys.specs.Branch.{width_of};
ghost use Rattle.batch_text.specs.SeenLine.{seen_line};
ghost use Rattle.verify_run.specs.Checks.{IsUnread, AsLine, IsShown, IsNotShown, IsOfNoStore, end_at};
ghost use Rattle.verify_run.specs.Ends.{end_of, Leaves, Passes, LineEnds, MayEnd, IsEarlyEnd};
ghost use Rattle.verify_run.specs.LocalStores.{IsLocal, Goes, Stops};

use crate::change_lines::changes_at;
use crate::end::VerifyEnd;
use crate::point_lines::pairs_at;
use crate::proof_fault::{ProofFault, end_of_proof};
use crate::range_lines::pairs_in;
use batch_text::{InputKind, Line, LineFault, LineKind, read_line};
use bit_keys::Branch;
use disk_world::Disk;
use mdb_base::{Sink, write_all};
use mdb_core::Db;
use std::alloc::Global;

// Reads the line of this number.
fn read(alloc: Global, line: &[u8], number: u64) -> Result<Line, VerifyEnd>
    ensures ok { IfOk result (λ found. line_of Verify line.now ≡ Ok (seen_line found)) }
    ensures err { IfErr result (IsUnread number (line_of Verify line.now)) }
{
    match read_line(alloc, line, number, InputKind::Verify) {
        Ok(found) => Ok(found),
        Err(
            LineFault {
                kind: LineKind::NoMemory,
                ..
            },
        ) => Err(VerifyEnd::NoMemory),
        Err(_) => Err(VerifyEnd::BadLine(number)),
    }
}

// How many pairs the proof of a line shows, which asks for no store, or none where the line tells of no proof.
fn shown_alone(alloc: Global, branch: Branch, line: Line) -> Result<Option<u64>, ProofFault>
    requires line { AsLine (seen_line line) }
    requires alone { tells_changes (Ok (seen_line line)) ≡ false }
    ensures ok { (found : Result Map Refusal) → IfOk result (λ pairs. IsShown pairs (read_verdict (width_of branch) found (Ok (seen_line line)))) }
    ensures err { (found : Result Map Refusal) → IfErr result (λ fault. IsNotShown fault (read_verdict (width_of branch) found (Ok (seen_line line)))) }
    ensures alone { IfErr result IsOfNoStore }
{
    match line {
        Line::Point { root, key, proof } => {
            let pairs = pairs_at(alloc, branch, &root, &key, &proof)?;
            Ok(Some(pairs))
        }
        Line::VerifyRange { root, range, proof } => {
            let pairs = pairs_in(alloc, branch, &root, &range, &proof)?;
            Ok(Some(pairs))
        }
        _ => Ok(None),
    }
}

// How many pairs or changes the proof of a line shows, or none where the line tells of no proof. The store is opened
// for changes, unless it was.
fn shown<D: Disk>(
    alloc: Global,
    branch: Branch,
    line: Line,
    store: &mut Option<Db>,
    disk: &mut D,
) -> Result<Option<u64>, ProofFault>
    requires { AsLine (seen_line line) }
    ensures ok { (before : DiskSeen) → IsLocal (width_of branch) before (disk_seen D.words disk.old) store.old
        → IfOk result (λ pairs. Goes (width_of branch) before (disk_seen D.words disk.new) store.old store.new (Ok (seen_line line)) (IsShown pairs)) }
    ensures err { (before : DiskSeen) → IsLocal (width_of branch) before (disk_seen D.words disk.old) store.old
        → IfErr result (λ fault. (n : ℕ) → Stops (width_of branch) before (disk_seen D.words disk.new) store.old (Ok (seen_line line)) (end_of (end_at n fault)) (IsNotShown fault)) }
    ensures later { D.words.faults disk.old ≤ D.words.faults disk.new }
{
    match line {
        Line::VerifyChanges { root, range, proof } => {
            match changes_at(alloc, branch, &root, &range, &proof, store, disk) {
                Ok(changes) => Ok(Some(changes)),
                Err(fault) => Err(fault),
            }
        }
        other => shown_alone(alloc, branch, other),
    }
}

// The line of a proof that shows so many pairs or changes, or no text where there was none to check.
fn ok_line(alloc: Global, pairs: Option<u64>) -> Result<String, VerifyEnd>
    ensures text { IfOk result (λ text. (verdict : Result (List ℕ) Fault) → IsShown pairs verdict → verdict ≡ Ok (string_bytes text)) }
    ensures err { IfErr result (λ end. end ≡ VerifyEnd.NoMemory) }
{
    match pairs {
        Some(pairs) => Ok(format!(in alloc; "ok {pairs}\n")?),
        None => Ok(String::new(alloc)),
    }
}

// What the line of this number prints, which was read.
fn text_of<D: Disk>(
    alloc: Global,
    branch: Branch,
    line: Line,
    number: u64,
    store: &mut Option<Db>,
    disk: &mut D,
) -> Result<String, VerifyEnd>
    requires { AsLine (seen_line line) }
    ensures ok { (before : DiskSeen) → IsLocal (width_of branch) before (disk_seen D.words disk.old) store.old
        → IfOk result (λ text. Goes (width_of branch) before (disk_seen D.words disk.new) store.old store.new (Ok (seen_line line)) (λ verdict. verdict ≡ Ok (string_bytes text))) }
    ensures err { (before : DiskSeen) → IsLocal (width_of branch) before (disk_seen D.words disk.old) store.old
        → IfErr result (λ end. Stops (width_of branch) before (disk_seen D.words disk.new) store.old (Ok (seen_line line)) (end_of end) (λ verdict. Leaves number verdict end)) }
    ensures early { IfErr result IsEarlyEnd }
    ensures later { D.words.faults disk.old ≤ D.words.faults disk.new }
{
    match shown(alloc, branch, line, store, disk) {
        Ok(pairs) => ok_line(alloc, pairs),
        Err(fault) => Err(end_of_proof(fault, number)),
    }
}

// What the line of this number prints.
fn check_line<D: Disk>(
    alloc: Global,
    branch: Branch,
    line: &[u8],
    number: u64,
    store: &mut Option<Db>,
    disk: &mut D,
) -> Result<String, VerifyEnd>
    ensures ok { (before : DiskSeen) → IsLocal (width_of branch) before (disk_seen D.words disk.old) store.old
        → IfOk result (λ text. Goes (width_of branch) before (disk_seen D.words disk.new) store.old store.new (line_of Verify line.now) (λ verdict. verdict ≡ Ok (string_bytes text))) }
    ensures err { (before : DiskSeen) → IsLocal (width_of branch) before (disk_seen D.words disk.old) store.old
        → IfErr result (λ end. Stops (width_of branch) before (disk_seen D.words disk.new) store.old (line_of Verify line.now) (end_of end) (λ verdict. Leaves number verdict end)) }
    ensures early { IfErr result IsEarlyEnd }
    ensures later { D.words.faults disk.old ≤ D.words.faults disk.new }
{
    let line = match read(alloc, line, number) {
        Ok(line) => line,
        Err(end) => return Err(end),
    };
    text_of(alloc, branch, line, number, store, disk)
}

/// Checks the line of this number, and prints what it shows.
pub(crate) fn step<K: Sink, D: Disk>(
    alloc: Global,
    branch: Branch,
    line: &[u8],
    number: u64,
    store: &mut Option<Db>,
    out: &mut K,
    disk: &mut D,
) -> Result<(), VerifyEnd>
    ensures ok { (before : DiskSeen) → IsLocal (width_of branch) before (disk_seen D.words disk.old) store.old
        → OnOk result (Goes (width_of branch) before (disk_seen D.words disk.new) store.old store.new (line_of Verify line.now) (λ verdict. Passes verdict (K.taken out.old) (K.taken out.new))) }
    ensures err { (before : DiskSeen) → IsLocal (width_of branch) before (disk_seen D.words disk.old) store.old
        → IfErr result (λ end. Stops (width_of branch) before (disk_seen D.words disk.new) store.old (line_of Verify line.now) (end_of end)
        (λ verdict. LineEnds number verdict (K.taken out.old) (K.taken out.new) (K.faults out.old) (K.faults out.new) end)) }
    ensures may { IfErr result (MayEnd (K.taken out.old) (K.taken out.new) (K.faults out.old) (K.faults out.new)) }
    ensures tells { TellsAlike (K.taken out.old) (K.taken out.new) }
    ensures writes { K.faults out.old ≤ K.faults out.new }
    ensures later { D.words.faults disk.old ≤ D.words.faults disk.new }
{
    let text = match check_line(alloc, branch, line, number, store, disk) {
        Ok(text) => text,
        Err(end) => return Err(end),
    };
    match write_all(out, text.as_bytes()) {
        Ok(()) => Ok(()),
        Err(_) => Err(VerifyEnd::Write),
    }
}
