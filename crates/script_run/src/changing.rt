// Lines that prove what changed between two maps of the store.
ghost use Rattle.std.specs.Prelude.{◌≡◌, ◌⊎◌, ◌≤◌, ◌++◌, ◌∷◌, ℕ, [], false, true, option_map, string_bytes, IfOk, IfErr, OnOk, IsErrOf};
ghost use Rattle.base_model.specs.Faults.{Rose};
ghost use Rattle.disk_model.specs.Files.{Files};
ghost use Rattle.disk_model.specs.Words.{TellsContents};
ghost use Rattle.trie_model.specs.Maps.{Map};
ghost use Rattle.text_model.specs.Texts.{changes_text};
ghost use Rattle.proof_model.specs.ChangeWire.{changes_form};
ghost use Rattle.session_model.specs.MapsByRoot.{between, changes_proved};
ghost use Rattle.session_model.specs.Session.{told_changes};
ghost use Rattle.batch_text.specs.SeenLine.{seen_root};
ghost use Rattle.mdb_journal.specs.Opening.{Untouched};
ghost use Rattle.mdb_core.specs.Stores.{Keeps, held_maps, is_failed};
ghost use Rattle.script_run.specs.Ends.{IsTextOf};
ghost use Rattle.script_run.specs.NamedSpots.{IsTakenBetween, IsProofBetween};

use crate::SessionEnd;
use crate::end::end_of_fault;
use crate::proving::{hex_line, root_of};
use crate::telling::refused_line;
use batch_text::RootWord;
use bit_keys::{Id, Range};
use change_history::{HistoryFault, Taken};
use change_proof::prove as prove_changes;
use disk_world::Disk;
use mdb_core::{At, Db, DbFault, DbSource};
use proof_check::ChangeProof;
use std::alloc::Global;
use trie_items::SourceFault;

// The first changes between the maps of two roots; None where the store doesn't hold them so.
fn taken_between(
    alloc: Global,
    db: &Db,
    from: Id,
    to: Id,
    range: &Range,
    pairs: u32,
    bytes: u32,
) -> Result<Option<Taken>, SessionEnd>
    ensures taken { (m : Map) (files : Files) → Keeps db.now m files → IfOk result (λ taken. IsTakenBetween pairs bytes range.now (between db.now.width (held_maps db.now m) from to) taken) }
    ensures end { IfErr result (λ end. end ≡ SessionEnd.NoMemory) }
{
    match db.changes(alloc, &from, &to, range, pairs, bytes) {
        Ok(taken) => Ok(Some(taken)),
        Err(HistoryFault::NoEnd | HistoryFault::NoStart) => Ok(None),
        Err(HistoryFault::NoMemory) => Err(SessionEnd::NoMemory),
    }
}

// The proof of the first changes between the maps of two roots; None where the store doesn't hold them so.
fn changes_at<D: Disk>(
    alloc: Global,
    db: &mut Db,
    from: Id,
    to: Id,
    range: &Range,
    pairs: u32,
    bytes: u32,
    disk: &mut D,
) -> Result<Option<ChangeProof>, SessionEnd>
    requires { is_failed db.old ≡ false }
    ensures proof { TellsContents D.words.tells → (m : Map) → Keeps db.old m (D.words.seen disk.old)
        → IfOk result (λ proof. IsProofBetween db.old.width range.now pairs bytes (between db.old.width (held_maps db.old m) from to) proof) }
    ensures end { IfErr result (λ end. (end ≡ SessionEnd.NoMemory) ⊎ ((end ≡ SessionEnd.Disk) × Rose (D.words.faults disk.old) (D.words.faults disk.new))) }
    ensures stays { OnOk result (db.new ≡ db.old) }
    ensures failed { is_failed db.new ≡ true → IsErrOf result SessionEnd.Disk }
    ensures width { db.new.width ≡ db.old.width }
    ensures untouched { Untouched (D.words.seen disk.old) (D.words.seen disk.new) (D.words.moments disk.old) (D.words.moments disk.new) }
    ensures later { D.words.faults disk.old ≤ D.words.faults disk.new }
{
    let taken = match taken_between(alloc, db, from, to, range, pairs, bytes) {
        Ok(Some(taken)) => taken,
        Ok(None) => return Ok(None),
        Err(end) => return Err(end),
    };
    let spot = match db.source(alloc, disk, At::Root(to)) {
        Ok(spot) => spot,
        Err(DbFault::NotHeld) => return Ok(None),
        Err(fault) => return Err(end_of_fault(fault)),
    };
    let branch = db.branch();
    let mut source = DbSource {
        db,
        disk,
        spot: &spot,
    };
    match prove_changes(alloc, &mut source, branch, range, taken) {
        Ok(proof) => Ok(Some(proof)),
        Err(SourceFault::Failed) => Err(SessionEnd::Disk),
        Err(SourceFault::NoMemory) => Err(SessionEnd::NoMemory),
    }
}

fn line_of_changes(alloc: Global, proof: &ChangeProof) -> Result<String, SessionEnd>
    ensures { IsTextOf (changes_text (changes_form proof.now)) result }
{
    let mut bytes = Vec::new(alloc);
    if proof.encode(&mut bytes).is_err() {
        return Err(SessionEnd::NoMemory);
    }
    hex_line(alloc, "changes ", &bytes)
}

/// The line of the proof of the changes in a range from the map of one root to that of another, with so many changes and so
/// many bytes of them at most; None where the store doesn't hold the later map, or the former one at or before it.
pub fn changes_line<D: Disk>(
    alloc: Global,
    db: &mut Db,
    from: RootWord,
    to: RootWord,
    range: &Range,
    pairs: u32,
    bytes: u32,
    disk: &mut D,
) -> Result<Option<String>, SessionEnd>
    requires { is_failed db.old ≡ false }
    ensures text { TellsContents D.words.tells → (m : Map) → Keeps db.old m (D.words.seen disk.old)
        → IfOk result (λ line. option_map string_bytes line ≡ option_map changes_text (changes_proved db.old.width (held_maps db.old m) (seen_root from) (seen_root to) range.now pairs bytes)) }
    ensures end { IfErr result (λ end. (end ≡ SessionEnd.NoMemory) ⊎ ((end ≡ SessionEnd.Disk) × Rose (D.words.faults disk.old) (D.words.faults disk.new))) }
    ensures stays { OnOk result (db.new ≡ db.old) }
    ensures failed { is_failed db.new ≡ true → IsErrOf result SessionEnd.Disk }
    ensures width { db.new.width ≡ db.old.width }
    ensures untouched { Untouched (D.words.seen disk.old) (D.words.seen disk.new) (D.words.moments disk.old) (D.words.moments disk.new) }
    ensures later { D.words.faults disk.old ≤ D.words.faults disk.new }
{
    let Some(from) = root_of(db, from) else {
        return Ok(None);
    };
    let Some(to) = root_of(db, to) else {
        return Ok(None);
    };
    let proof = match changes_at(alloc, db, from, to, range, pairs, bytes, disk) {
        Ok(Some(proof)) => proof,
        Ok(None) => return Ok(None),
        Err(end) => return Err(end),
    };
    match line_of_changes(alloc, &proof) {
        Ok(line) => Ok(Some(line)),
        Err(end) => Err(end),
    }
}

/// The line that a script prints of the proof of changes.
pub(crate) fn changes<D: Disk>(
    alloc: Global,
    db: &mut Db,
    from: RootWord,
    to: RootWord,
    range: &Range,
    pairs: u32,
    bytes: u32,
    disk: &mut D,
) -> Result<String, SessionEnd>
    requires { is_failed db.old ≡ false }
    ensures text { TellsContents D.words.tells → (m : Map) → Keeps db.old m (D.words.seen disk.old)
        → IfOk result (λ text. string_bytes text ≡ (told_changes (changes_proved db.old.width (held_maps db.old m) (seen_root from) (seen_root to) range.now pairs bytes)).text) }
    ensures end { IfErr result (λ end. (end ≡ SessionEnd.NoMemory) ⊎ ((end ≡ SessionEnd.Disk) × Rose (D.words.faults disk.old) (D.words.faults disk.new))) }
    ensures stays { OnOk result (db.new ≡ db.old) }
    ensures failed { is_failed db.new ≡ true → IsErrOf result SessionEnd.Disk }
    ensures width { db.new.width ≡ db.old.width }
    ensures untouched { Untouched (D.words.seen disk.old) (D.words.seen disk.new) (D.words.moments disk.old) (D.words.moments disk.new) }
    ensures later { D.words.faults disk.old ≤ D.words.faults disk.new }
{
    match changes_line(alloc, db, from, to, range, pairs, bytes, disk) {
        Ok(Some(line)) => Ok(line),
        Ok(None) => refused_line(alloc, "not held"),
        Err(end) => Err(end),
    }
}
