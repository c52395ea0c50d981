// A whole script.
ghost use Rattle.std.specs.Prelude.{◌≡◌, ◌≤◌, ◌<◌, ℕ, [], false, true, length, IfSome, IfErr, OnOk, OnErr, IsErrOf};
ghost use Rattle.base_model.specs.Faults.{Rose, TellsAlike};
ghost use Rattle.base_model.specs.Streams.{AtEnd};
ghost use Rattle.disk_model.specs.Moments.{Meanwhile};
ghost use Rattle.disk_model.specs.Words.{TellsContents, TellsImages};
ghost use Rattle.trie_model.specs.Maps.{Map};
ghost use Rattle.text_model.specs.Lines.{input_limit};
ghost use Rattle.session_model.specs.Session.{Session};
ghost use Rattle.session_model.specs.Script.{script, at_end};
ghost use Rattle.run_model.specs.OutsideThings.{outside, disk_seen};
ghost use Rattle.run_model.specs.Script.{ScriptRuns, HasSteps, Keeps as KeepsSteps};
ghost use Rattle.mdb_base.specs.declared.faults.LimitKind.TheVariants.{Input};
ghost use Rattle.mdb_journal.specs.DiskMoves.{AreSynced};
ghost use Rattle.mdb_core.specs.Stores.{Keeps, is_failed};
ghost use Rattle.script_run.specs.Ends.{end_of, reader_end, StepCause, LinesCause};
ghost use Rattle.store_opening.specs.Opening.{IsJustOpened};
ghost use Rattle.script_run.specs.ScriptSteps.{IsAt, PartRuns, AllDone, all_lines, still};

use crate::SessionEnd;
use crate::committing::commit_and_print;
use crate::line_step::step;
use crate::pending::Pending;
use batch_text::{LineReader, ReaderFault};
use disk_world::Disk;
use mdb_base::{LimitKind, Sink, Source};
use mdb_core::Db;
use std::alloc::Global;

/// The most bytes of an input that are read.
const INPUT_LIMIT: usize = 1_073_741_824;

fn end_of_reader(fault: ReaderFault, number: u64) -> SessionEnd
    ensures { result ≡ reader_end number fault }
{
    match fault {
        ReaderFault::Read => SessionEnd::Read,
        ReaderFault::Limit => SessionEnd::Limit(LimitKind::Input),
        ReaderFault::Overlong => SessionEnd::BadLine(number),
        ReaderFault::NoMemory => SessionEnd::NoMemory,
    }
}

// Does the lines of an input one after another, to its end.
fn run_lines<S: Source, K: Sink, D: Disk>(
    alloc: Global,
    db: &mut Db,
    pending: &mut Pending,
    input: &mut S,
    out: &mut K,
    disk: &mut D,
) -> Result<(), SessionEnd>
    requires works { is_failed db.old ≡ false }
    requires none { pending.old ≡ [] }
    ensures done { TellsContents D.words.tells → (m : Map) → Keeps db.old m (D.words.seen disk.old) → IsJustOpened db.old
        → OnOk result (IfSome (S.left input.old) (λ bytes. AllDone db.old.width m bytes db.new pending.new (D.words.seen disk.new) (K.taken out.old) (K.taken out.new))) }
    ensures stopped { TellsContents D.words.tells → (m : Map) → Keeps db.old m (D.words.seen disk.old) → IsJustOpened db.old
        → let before = outside (S.left input.old) (S.faults input.old) (K.taken out.old) (K.faults out.old) (disk_seen D.words disk.old) in
        let after = outside (S.left input.new) (S.faults input.new) (K.taken out.new) (K.faults out.new) (disk_seen D.words disk.new) in
        IfErr result (λ end. IfSome (S.left input.old) (λ bytes. ScriptRuns db.old.width m bytes before after (end_of end))) }
    ensures meanwhile { TellsImages D.words.tells → (m : Map) → Keeps db.old m (D.words.seen disk.old) → AreSynced (D.words.seen disk.old) (D.words.moments disk.old) → IsJustOpened db.old
        → OnOk result (IfSome (S.left input.old) (λ bytes. Meanwhile (HasSteps m (all_lines db.old.width m bytes).steps 0) (D.words.moments disk.old) (D.words.moments disk.new))) }
    ensures kept { TellsImages D.words.tells → (m : Map) → Keeps db.old m (D.words.seen disk.old) → AreSynced (D.words.seen disk.old) (D.words.moments disk.old) → IsJustOpened db.old
        → OnErr result (IfSome (S.left input.old) (λ bytes. KeepsSteps m (script db.old.width m bytes).steps (K.taken out.old) (K.taken out.new) (D.words.moments disk.old) (D.words.moments disk.new))) }
    ensures synced { TellsImages D.words.tells → AreSynced (D.words.seen disk.old) (D.words.moments disk.old) → OnOk result (AreSynced (D.words.seen disk.new) (D.words.moments disk.new)) }
    ensures works { OnOk result (is_failed db.new ≡ false) }
    ensures failed { is_failed db.new ≡ true → IsErrOf result SessionEnd.Disk }
    ensures width { db.new.width ≡ db.old.width }
    ensures end { OnOk result (AtEnd (S.left input.new)) }
    ensures cause { IfErr result (LinesCause (S.left input.old) (S.faults input.old) (S.faults input.new) (K.faults out.old) (K.faults out.new) (D.words.faults disk.old) (D.words.faults disk.new)) }
    ensures input_later { S.faults input.old ≤ S.faults input.new }
    ensures out_later { K.faults out.old ≤ K.faults out.new }
    ensures disk_later { D.words.faults disk.old ≤ D.words.faults disk.new }
{
    let mut reader = LineReader::new(alloc, INPUT_LIMIT);
    let mut number = 1u64;
    'lines: loop {
        match reader.advance(input) {
            Ok(true) => {}
            Ok(false) => return Ok(()),
            Err(fault) => return Err(end_of_reader(fault, number)),
        }
        match step(alloc, db, pending, reader.line(), number, out, disk) {
            Ok(()) => {}
            Err(end) => return Err(end),
        }
        number += 1;
    }
}

// Commits what is pending at the end of an input, if anything is.
fn finish<K: Sink, D: Disk>(
    alloc: Global,
    db: &mut Db,
    pending: Pending,
    out: &mut K,
    disk: &mut D,
) -> SessionEnd
    requires { is_failed db.old ≡ false }
    ensures runs { TellsContents D.words.tells → (s : Session) → IsAt s db.old pending (D.words.seen disk.old)
        → PartRuns (at_end db.old.width (still s) s.pending) s.map (K.taken out.old) (K.taken out.new) (D.words.seen disk.new) (end_of result) }
    ensures kept { TellsImages D.words.tells → (s : Session) → IsAt s db.old pending (D.words.seen disk.old) → AreSynced (D.words.seen disk.old) (D.words.moments disk.old)
        → KeepsSteps s.map (at_end db.old.width (still s) s.pending).steps (K.taken out.old) (K.taken out.new) (D.words.moments disk.old) (D.words.moments disk.new) }
    ensures failed { is_failed db.new ≡ true → result ≡ SessionEnd.Disk }
    ensures cause { (result ≡ SessionEnd.Done → ⊥) → StepCause (K.faults out.old) (K.faults out.new) (D.words.faults disk.old) (D.words.faults disk.new) result }
    ensures out_later { K.faults out.old ≤ K.faults out.new }
    ensures disk_later { D.words.faults disk.old ≤ D.words.faults disk.new }
{
    if pending.is_empty() {
        return SessionEnd::Done;
    }
    let Ok(batch) = pending.into_batch(alloc) else {
        return SessionEnd::NoMemory;
    };
    match commit_and_print(alloc, db, batch, out, disk) {
        Ok(()) => SessionEnd::Done,
        Err(end) => end,
    }
}

/// Reads lines from the input to its end, does them on the store, and prints what they print.
///
/// Lines before a bad one keep their effect. It does not close the store.
pub fn session<S: Source, K: Sink, D: Disk>(
    alloc: Global,
    db: &mut Db,
    input: &mut S,
    out: &mut K,
    disk: &mut D,
) -> SessionEnd
    requires { is_failed db.old ≡ false }
    ensures script { TellsContents D.words.tells → (m : Map) → Keeps db.old m (D.words.seen disk.old) → IsJustOpened db.old
        → let before = outside (S.left input.old) (S.faults input.old) (K.taken out.old) (K.faults out.old) (disk_seen D.words disk.old) in
        let after = outside (S.left input.new) (S.faults input.new) (K.taken out.new) (K.faults out.new) (disk_seen D.words disk.new) in
        IfSome (S.left input.old) (λ bytes. ScriptRuns db.old.width m bytes before after (end_of result)) }
    ensures kept { TellsImages D.words.tells → (m : Map) → Keeps db.old m (D.words.seen disk.old) → AreSynced (D.words.seen disk.old) (D.words.moments disk.old) → IsJustOpened db.old
        → IfSome (S.left input.old) (λ bytes. KeepsSteps m (script db.old.width m bytes).steps (K.taken out.old) (K.taken out.new) (D.words.moments disk.old) (D.words.moments disk.new)) }
    ensures end { result ≡ SessionEnd.Done → AtEnd (S.left input.new) }
    ensures limit { result ≡ SessionEnd.Limit Input → IfSome (S.left input.old) (λ bytes. input_limit < length bytes) }
    ensures damaged { (file at : ℕ) → result ≡ SessionEnd.Damaged file at → ⊥ }
    ensures failed { is_failed db.new ≡ true → result ≡ SessionEnd.Disk }
    ensures read { result ≡ SessionEnd.Read → Rose (S.faults input.old) (S.faults input.new) }
    ensures write { result ≡ SessionEnd.Write → Rose (K.faults out.old) (K.faults out.new) }
    ensures disk { result ≡ SessionEnd.Disk → Rose (D.words.faults disk.old) (D.words.faults disk.new) }
    ensures input_later { S.faults input.old ≤ S.faults input.new }
    ensures out_later { K.faults out.old ≤ K.faults out.new }
    ensures disk_later { D.words.faults disk.old ≤ D.words.faults disk.new }
{
    let mut pending = Pending::new(alloc);
    match run_lines(alloc, db, &mut pending, input, out, disk) {
        Ok(()) => finish(alloc, db, pending, out, disk),
        Err(end) => end,
    }
}
