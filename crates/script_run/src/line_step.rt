// What a line of a script does.
ghost use Rattle.std.specs.Prelude.{◌≡◌, ◌≤◌, ℕ, [], Ok, Err, false, true, option_map, string_bytes, IfOk, IfErr, OnOk, OnErr, IsErrOf};
ghost use Rattle.base_model.specs.Faults.{TellsAlike};
ghost use Rattle.disk_model.specs.Words.{TellsContents, TellsImages};
ghost use Rattle.trie_model.specs.Maps.{Map};
ghost use Rattle.batch_model.specs.Batch.{set_change};
ghost use Rattle.text_model.specs.ReadLine.{Script, read_line as line_of};
ghost use Rattle.session_model.specs.Session.{Session, or_limit, line_step as step_of_line, step as step_of};
ghost use Rattle.run_model.specs.Script.{Keeps as KeepsSteps};
ghost use Rattle.mdb_base.specs.Batches.{change_of};
ghost use Rattle.mdb_journal.specs.DiskMoves.{AreSynced};
ghost use Rattle.mdb_core.specs.Stores.{Keeps, is_failed};
ghost use Rattle.batch_text.specs.SeenLine.{seen_line};
ghost use Rattle.script_run.specs.Ends.{end_of, IsTextOf, StepCause};
ghost use Rattle.script_run.specs.ScriptSteps.{IsAt, IsDone, IsMade, PartRuns, RunsUnprinted, KeptUnprinted, KeptPrinting, IsUnread, played, session_of};

use crate::SessionEnd;
use crate::changing::changes;
use crate::committing::{commit, take};
use crate::pending::Pending;
use crate::proving::{prove, range};
use crate::telling::{get, print, root};
use crate::viewing::{close, state, view};
use batch_text::{InputKind, KeyBytes, Line, LineFault, LineKind, read_line};
use disk_world::Disk;
use mdb_base::Sink;
use mdb_core::Db;
use std::alloc::Global;

// Reads the line of this number.
fn read(alloc: Global, line: &[u8], number: u64) -> Result<Line, SessionEnd>
    ensures ok { IfOk result (λ found. line_of Script line.now ≡ Ok (seen_line found)) }
    ensures err { IfErr result (IsUnread number (line_of Script line.now)) }
{
    match read_line(alloc, line, number, InputKind::Script) {
        Ok(found) => Ok(found),
        Err(
            LineFault {
                kind: LineKind::NoMemory,
                ..
            },
        ) => Err(SessionEnd::NoMemory),
        Err(_) => Err(SessionEnd::BadLine(number)),
    }
}

// Adds a change to those that are pending. Nothing is printed.
fn pend(
    alloc: Global,
    pending: &mut Pending,
    key: KeyBytes,
    value: Option<Vec<u8>>,
) -> Result<String, SessionEnd>
    ensures ok { OnOk result (pending.new ≡ set_change pending.old (change_of key.items (option_map (λ v. v.items) value))) }
    ensures text { IsTextOf [] result }
{
    match pending.set(key, value) {
        Ok(()) => Ok(String::new(alloc)),
        Err(_) => Err(SessionEnd::NoMemory),
    }
}

// Does what a line asks for, and gives the text that it prints.
fn do_line<D: Disk>(
    alloc: Global,
    db: &mut Db,
    pending: &mut Pending,
    line: Line,
    disk: &mut D,
) -> Result<String, SessionEnd>
    requires { is_failed db.old ≡ false }
    ensures done { TellsContents D.words.tells → (m : Map) → Keeps db.old m (D.words.seen disk.old)
        → IfOk result (λ text. IsMade (or_limit (step_of_line db.old.width (session_of m db.old pending.old) (seen_line line))) (string_bytes text) db.new pending.new (D.words.seen disk.new)) }
    ensures stopped { TellsContents D.words.tells → (m : Map) → Keeps db.old m (D.words.seen disk.old)
        → IfErr result (λ end. RunsUnprinted (session_of m db.old pending.old) (or_limit (step_of_line db.old.width (session_of m db.old pending.old) (seen_line line))) (D.words.seen disk.new) (end_of end)) }
    ensures kept { TellsImages D.words.tells → (m : Map) → Keeps db.old m (D.words.seen disk.old) → AreSynced (D.words.seen disk.old) (D.words.moments disk.old)
        → OnErr result (KeptUnprinted (session_of m db.old pending.old) (or_limit (step_of_line db.old.width (session_of m db.old pending.old) (seen_line line))) (D.words.moments disk.old) (D.words.moments disk.new)) }
    ensures told { TellsImages D.words.tells → (m : Map) → Keeps db.old m (D.words.seen disk.old) → AreSynced (D.words.seen disk.old) (D.words.moments disk.old)
        → OnOk result (KeptPrinting (session_of m db.old pending.old) (or_limit (step_of_line db.old.width (session_of m db.old pending.old) (seen_line line))) (D.words.moments disk.old) (D.words.moments disk.new)) }
    ensures synced { TellsImages D.words.tells → AreSynced (D.words.seen disk.old) (D.words.moments disk.old) → OnOk result (AreSynced (D.words.seen disk.new) (D.words.moments disk.new)) }
    ensures works { OnOk result (is_failed db.new ≡ false) }
    ensures failed { is_failed db.new ≡ true → IsErrOf result SessionEnd.Disk }
    ensures width { db.new.width ≡ db.old.width }
    ensures cause { (writes writes' : ℕ) → IfErr result (StepCause writes writes' (D.words.faults disk.old) (D.words.faults disk.new)) }
    ensures later { D.words.faults disk.old ≤ D.words.faults disk.new }
{
    match line {
        Line::Skip => Ok(String::new(alloc)),
        Line::Put { key, value } => pend(alloc, pending, key, Some(value)),
        Line::Del { key } => pend(alloc, pending, key, None),
        Line::Commit => match pending.take(alloc) {
            Ok(batch) => commit(alloc, db, batch, disk),
            Err(_) => Err(SessionEnd::NoMemory),
        },
        Line::View { place } => match pending.take(alloc) {
            Ok(batch) => view(alloc, db, place, batch, disk),
            Err(_) => Err(SessionEnd::NoMemory),
        },
        Line::Take { number } => take(alloc, db, number, disk),
        Line::Close { number } => close(alloc, db, number),
        Line::State { number } => state(alloc, db, number),
        Line::Get { place, key } => get(alloc, db, place, &key, disk),
        Line::Root { place } => root(alloc, db, place),
        Line::Prove { root, key } => prove(alloc, db, root, &key, disk),
        Line::RangeOf {
            root,
            range: asked,
            pairs,
            bytes,
        } => range(alloc, db, root, &asked, pairs, bytes, disk),
        Line::ChangesOf {
            from,
            to,
            range: asked,
            pairs,
            bytes,
        } => changes(alloc, db, from, to, &asked, pairs, bytes, disk),
        // No script has a line that checks a proof.
        Line::Point { .. } => Ok(String::new(alloc)),
        Line::VerifyRange { .. } => Ok(String::new(alloc)),
        Line::VerifyChanges { .. } => Ok(String::new(alloc)),
    }
}

/// Reads the line of this number, does what it asks for, and prints its text.
pub(crate) fn step<K: Sink, D: Disk>(
    alloc: Global,
    db: &mut Db,
    pending: &mut Pending,
    line: &[u8],
    number: u64,
    out: &mut K,
    disk: &mut D,
) -> Result<(), SessionEnd>
    requires { is_failed db.old ≡ false }
    ensures done { TellsContents D.words.tells → (s : Session) → IsAt s db.old pending.old (D.words.seen disk.old)
        → OnOk result (IsDone (step_of db.old.width number s line.now) db.new pending.new (D.words.seen disk.new) (K.taken out.old) (K.taken out.new)) }
    ensures stopped { TellsContents D.words.tells → (s : Session) → IsAt s db.old pending.old (D.words.seen disk.old)
        → IfErr result (λ end. PartRuns (played s (step_of db.old.width number s line.now)) s.map (K.taken out.old) (K.taken out.new) (D.words.seen disk.new) (end_of end)) }
    ensures kept { TellsImages D.words.tells → (s : Session) → IsAt s db.old pending.old (D.words.seen disk.old) → AreSynced (D.words.seen disk.old) (D.words.moments disk.old)
        → KeepsSteps s.map (played s (step_of db.old.width number s line.now)).steps (K.taken out.old) (K.taken out.new) (D.words.moments disk.old) (D.words.moments disk.new) }
    ensures synced { TellsImages D.words.tells → AreSynced (D.words.seen disk.old) (D.words.moments disk.old) → OnOk result (AreSynced (D.words.seen disk.new) (D.words.moments disk.new)) }
    ensures works { OnOk result (is_failed db.new ≡ false) }
    ensures failed { is_failed db.new ≡ true → IsErrOf result SessionEnd.Disk }
    ensures width { db.new.width ≡ db.old.width }
    ensures cause { IfErr result (StepCause (K.faults out.old) (K.faults out.new) (D.words.faults disk.old) (D.words.faults disk.new)) }
    ensures tells { TellsAlike (K.taken out.old) (K.taken out.new) }
    ensures out_later { K.faults out.old ≤ K.faults out.new }
    ensures disk_later { D.words.faults disk.old ≤ D.words.faults disk.new }
{
    let line = match read(alloc, line, number) {
        Ok(line) => line,
        Err(end) => return Err(end),
    };
    match do_line(alloc, db, pending, line, disk) {
        Ok(text) => print(out, text),
        Err(end) => Err(end),
    }
}
