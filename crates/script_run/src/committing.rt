// Commits: a pending batch, or a view, is laid on the store before its line is printed.
ghost use Rattle.std.specs.Prelude.{◌≡◌, ◌≤◌, ◌<◌, [], ℕ, List, false, true, string_bytes, IfOk, IfErr, OnOk, OnErr, IsErrOf};
ghost use Rattle.base_model.specs.Faults.{TellsAlike};
ghost use Rattle.disk_model.specs.Words.{TellsContents, TellsImages};
ghost use Rattle.trie_model.specs.Maps.{Map};
ghost use Rattle.batch_model.specs.Batch.{Change};
ghost use Rattle.session_model.specs.Session.{Session, or_limit, commit as commit_of, take as take_of};
ghost use Rattle.run_model.specs.Script.{Keeps as KeepsSteps};
ghost use Rattle.mdb_journal.specs.DiskMoves.{AreSynced};
ghost use Rattle.mdb_core.specs.Stores.{Keeps, is_failed};
ghost use Rattle.script_run.specs.Ends.{end_of, StepCause};
ghost use Rattle.script_run.specs.ScriptSteps.{IsAt, IsDone, IsMade, PartRuns, RunsUnprinted, KeptUnprinted, KeptPrinting, played, session_of};

use crate::SessionEnd;
use crate::end::end_of_fault;
use crate::telling::{numbered_line, print, refuse};
use disk_world::Disk;
use mdb_base::{Batch, Sink};
use mdb_core::{Db, ViewId};
use std::alloc::Global;
use std::marker::Brand;
use std::sync::ledger::{Blank, Ledger};
use trie_items::Steps;

// Commits a batch, with hashes that nobody counts.
fn apply<D: Disk, L: Ledger>(
    alloc: Global,
    db: &mut Db,
    batch: Batch,
    disk: &mut D,
    blank: Blank,
) -> Result<String, SessionEnd>
    requires name { blank.name ≡ L.name }
    requires parts { blank.parts ≡ L.parts }
    requires some { 0 < blank.parts }
    requires works { is_failed db.old ≡ false }
    ensures done { TellsContents D.words.tells → (m : Map) → Keeps db.old m (D.words.seen disk.old)
        → IfOk result (λ text. IsMade (or_limit (commit_of db.old.width (session_of m db.old batch))) (string_bytes text) db.new [] (D.words.seen disk.new)) }
    ensures stopped { TellsContents D.words.tells → (m : Map) → Keeps db.old m (D.words.seen disk.old)
        → IfErr result (λ end. RunsUnprinted (session_of m db.old batch) (or_limit (commit_of db.old.width (session_of m db.old batch))) (D.words.seen disk.new) (end_of end)) }
    ensures kept { TellsImages D.words.tells → (m : Map) → Keeps db.old m (D.words.seen disk.old) → AreSynced (D.words.seen disk.old) (D.words.moments disk.old)
        → OnErr result (KeptUnprinted (session_of m db.old batch) (or_limit (commit_of db.old.width (session_of m db.old batch))) (D.words.moments disk.old) (D.words.moments disk.new)) }
    ensures told { TellsImages D.words.tells → (m : Map) → Keeps db.old m (D.words.seen disk.old) → AreSynced (D.words.seen disk.old) (D.words.moments disk.old)
        → OnOk result (KeptPrinting (session_of m db.old batch) (or_limit (commit_of db.old.width (session_of m db.old batch))) (D.words.moments disk.old) (D.words.moments disk.new)) }
    ensures synced { TellsImages D.words.tells → AreSynced (D.words.seen disk.old) (D.words.moments disk.old) → OnOk result (AreSynced (D.words.seen disk.new) (D.words.moments disk.new)) }
    ensures works { OnOk result (is_failed db.new ≡ false) }
    ensures failed { is_failed db.new ≡ true → IsErrOf result SessionEnd.Disk }
    ensures width { db.new.width ≡ db.old.width }
    ensures cause { (writes writes' : ℕ) → IfErr result (StepCause writes writes' (D.words.faults disk.old) (D.words.faults disk.new)) }
    ensures later { D.words.faults disk.old ≤ D.words.faults disk.new }
{
    let mut steps = Steps::<L>::new(blank);
    match db.apply(alloc, disk, batch, &mut steps) {
        Ok(made) => numbered_line(alloc, "commit ", made.0.number, &made.1),
        Err(fault) => Err(end_of_fault(fault)),
    }
}

/// Commits a batch, and tells its number and the root after it once no crash loses it.
pub(crate) fn commit<D: Disk>(
    alloc: Global,
    db: &mut Db,
    batch: Batch,
    disk: &mut D,
) -> Result<String, SessionEnd>
    requires works { is_failed db.old ≡ false }
    ensures done { TellsContents D.words.tells → (m : Map) → Keeps db.old m (D.words.seen disk.old)
        → IfOk result (λ text. IsMade (or_limit (commit_of db.old.width (session_of m db.old batch))) (string_bytes text) db.new [] (D.words.seen disk.new)) }
    ensures stopped { TellsContents D.words.tells → (m : Map) → Keeps db.old m (D.words.seen disk.old)
        → IfErr result (λ end. RunsUnprinted (session_of m db.old batch) (or_limit (commit_of db.old.width (session_of m db.old batch))) (D.words.seen disk.new) (end_of end)) }
    ensures kept { TellsImages D.words.tells → (m : Map) → Keeps db.old m (D.words.seen disk.old) → AreSynced (D.words.seen disk.old) (D.words.moments disk.old)
        → OnErr result (KeptUnprinted (session_of m db.old batch) (or_limit (commit_of db.old.width (session_of m db.old batch))) (D.words.moments disk.old) (D.words.moments disk.new)) }
    ensures told { TellsImages D.words.tells → (m : Map) → Keeps db.old m (D.words.seen disk.old) → AreSynced (D.words.seen disk.old) (D.words.moments disk.old)
        → OnOk result (KeptPrinting (session_of m db.old batch) (or_limit (commit_of db.old.width (session_of m db.old batch))) (D.words.moments disk.old) (D.words.moments disk.new)) }
    ensures synced { TellsImages D.words.tells → AreSynced (D.words.seen disk.old) (D.words.moments disk.old) → OnOk result (AreSynced (D.words.seen disk.new) (D.words.moments disk.new)) }
    ensures works { OnOk result (is_failed db.new ≡ false) }
    ensures failed { is_failed db.new ≡ true → IsErrOf result SessionEnd.Disk }
    ensures width { db.new.width ≡ db.old.width }
    ensures cause { (writes writes' : ℕ) → IfErr result (StepCause writes writes' (D.words.faults disk.old) (D.words.faults disk.new)) }
    ensures later { D.words.faults disk.old ≤ D.words.faults disk.new }
{
    apply::<D, Brand>(alloc, db, batch, disk, Blank::new(1))
}

/// Commits a batch, and prints its line once no crash loses it.
pub(crate) fn commit_and_print<K: Sink, D: Disk>(
    alloc: Global,
    db: &mut Db,
    batch: Batch,
    out: &mut K,
    disk: &mut D,
) -> Result<(), SessionEnd>
    requires { is_failed db.old ≡ false }
    ensures done { TellsContents D.words.tells → (s : Session) → IsAt s db.old batch (D.words.seen disk.old)
        → OnOk result (IsDone (or_limit (commit_of db.old.width s)) db.new [] (D.words.seen disk.new) (K.taken out.old) (K.taken out.new)) }
    ensures stopped { TellsContents D.words.tells → (s : Session) → IsAt s db.old batch (D.words.seen disk.old)
        → IfErr result (λ end. PartRuns (played s (or_limit (commit_of db.old.width s))) s.map (K.taken out.old) (K.taken out.new) (D.words.seen disk.new) (end_of end)) }
    ensures kept { TellsImages D.words.tells → (s : Session) → IsAt s db.old batch (D.words.seen disk.old) → AreSynced (D.words.seen disk.old) (D.words.moments disk.old)
        → KeepsSteps s.map (played s (or_limit (commit_of db.old.width s))).steps (K.taken out.old) (K.taken out.new) (D.words.moments disk.old) (D.words.moments disk.new) }
    ensures synced { TellsImages D.words.tells → AreSynced (D.words.seen disk.old) (D.words.moments disk.old) → OnOk result (AreSynced (D.words.seen disk.new) (D.words.moments disk.new)) }
    ensures works { OnOk result (is_failed db.new ≡ false) }
    ensures failed { is_failed db.new ≡ true → IsErrOf result SessionEnd.Disk }
    ensures width { db.new.width ≡ db.old.width }
    ensures cause { IfErr result (StepCause (K.faults out.old) (K.faults out.new) (D.words.faults disk.old) (D.words.faults disk.new)) }
    ensures tells { TellsAlike (K.taken out.old) (K.taken out.new) }
    ensures out_later { K.faults out.old ≤ K.faults out.new }
    ensures disk_later { D.words.faults disk.old ≤ D.words.faults disk.new }
{
    match commit(alloc, db, batch, disk) {
        Ok(text) => print(out, text),
        Err(end) => Err(end),
    }
}

/// Commits a view, and tells its number and the root after it once no crash loses it.
pub(crate) fn take<D: Disk>(
    alloc: Global,
    db: &mut Db,
    number: u64,
    disk: &mut D,
) -> Result<String, SessionEnd>
    requires works { is_failed db.old ≡ false }
    ensures done { TellsContents D.words.tells → (m : Map) (pending : List Change) → Keeps db.old m (D.words.seen disk.old)
        → IfOk result (λ text. IsMade (or_limit (take_of db.old.width (session_of m db.old pending) number)) (string_bytes text) db.new pending (D.words.seen disk.new)) }
    ensures stopped { TellsContents D.words.tells → (m : Map) (pending : List Change) → Keeps db.old m (D.words.seen disk.old)
        → IfErr result (λ end. RunsUnprinted (session_of m db.old pending) (or_limit (take_of db.old.width (session_of m db.old pending) number)) (D.words.seen disk.new) (end_of end)) }
    ensures kept { TellsImages D.words.tells → (m : Map) (pending : List Change) → Keeps db.old m (D.words.seen disk.old) → AreSynced (D.words.seen disk.old) (D.words.moments disk.old)
        → OnErr result (KeptUnprinted (session_of m db.old pending) (or_limit (take_of db.old.width (session_of m db.old pending) number)) (D.words.moments disk.old) (D.words.moments disk.new)) }
    ensures told { TellsImages D.words.tells → (m : Map) (pending : List Change) → Keeps db.old m (D.words.seen disk.old) → AreSynced (D.words.seen disk.old) (D.words.moments disk.old)
        → OnOk result (KeptPrinting (session_of m db.old pending) (or_limit (take_of db.old.width (session_of m db.old pending) number)) (D.words.moments disk.old) (D.words.moments disk.new)) }
    ensures synced { TellsImages D.words.tells → AreSynced (D.words.seen disk.old) (D.words.moments disk.old) → OnOk result (AreSynced (D.words.seen disk.new) (D.words.moments disk.new)) }
    ensures works { OnOk result (is_failed db.new ≡ false) }
    ensures failed { is_failed db.new ≡ true → IsErrOf result SessionEnd.Disk }
    ensures width { db.new.width ≡ db.old.width }
    ensures cause { (writes writes' : ℕ) → IfErr result (StepCause writes writes' (D.words.faults disk.old) (D.words.faults disk.new)) }
    ensures later { D.words.faults disk.old ≤ D.words.faults disk.new }
{
    match db.commit(alloc, disk, ViewId { number }) {
        Ok(root) => numbered_line(alloc, "taken ", number, &root),
        Err(fault) => refuse(alloc, fault),
    }
}
