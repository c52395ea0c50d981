// Lines that prove what the store has.
ghost use Rattle.std.specs.Prelude.{◌≡◌, ◌⊎◌, ◌≤◌, ◌++◌, ◌∷◌, ℕ, [], false, true, None, option_map, string_bytes, IfOk, IfErr, IfSome, IfNone, OnOk, IsErrOf};
ghost use Rattle.hex.specs.Hex.{encode_lower};
ghost use Rattle.base_model.specs.Faults.{Rose};
ghost use Rattle.disk_model.specs.Words.{TellsContents};
ghost use Rattle.disk_model.specs.Files.{Files};
ghost use Rattle.trie_model.specs.Maps.{Map};
ghost use Rattle.text_model.specs.Texts.{proof_text, range_text};
ghost use Rattle.proof_model.specs.Proofs.{point_proof};
ghost use Rattle.proof_model.specs.RangeProofs.{range_proof};
ghost use Rattle.proof_model.specs.Wire.{point_form};
ghost use Rattle.proof_model.specs.RangeWire.{range_form};
ghost use Rattle.session_model.specs.MapsByRoot.{root_meant, named, proved, range_proved};
ghost use Rattle.session_model.specs.Session.{told_proof, told_range};
ghost use Rattle.batch_text.specs.SeenLine.{seen_root};
ghost use Rattle.mdb_journal.specs.Opening.{Untouched};
ghost use Rattle.mdb_core.specs.Stores.{Keeps, held_maps, is_failed};
ghost use Rattle.mdb_core.specs.Spots.{IsSpotOf};
ghost use Rattle.script_run.specs.Ends.{IsTextOf};
ghost use Rattle.script_run.specs.NamedSpots.{IsSpotNamed};

use crate::SessionEnd;
use crate::end::end_of_fault;
use crate::telling::refused_line;
use batch_text::RootWord;
use bit_keys::{Id, Range};
use disk_world::Disk;
use mdb_core::{At, Db, DbFault, DbSource, Spot};
use point_proof::prove as prove_point;
use proof_check::{PointProof, RangeProof};
use range_proof::prove as prove_range;
use std::alloc::Global;
use trie_items::SourceFault;

/// The root that a word stands for; None where so many commits are not held.
pub(crate) fn root_of(db: &Db, root: RootWord) -> Option<Id>
    ensures { (m : Map) (files : Files) → Keeps db.now m files → result ≡ root_meant db.now.width (held_maps db.now m) (seen_root root) }
{
    match root {
        RootWord::Id(id) => Some(id),
        RootWord::Now => Some(db.root()),
        RootWord::Empty => Some([0; 32]),
        RootWord::Back(commits) => db.back(commits),
    }
}

// The spot of the map that a root names; None where the store holds no such map.
fn spot_of<D: Disk>(
    alloc: Global,
    db: &mut Db,
    root: RootWord,
    disk: &mut D,
) -> Result<Option<Spot>, SessionEnd>
    requires { is_failed db.old ≡ false }
    ensures spot { (m : Map) (files : Files) → Keeps db.old m files → IfOk result (λ spot. IsSpotNamed db.old m spot (named db.old.width (held_maps db.old m) (seen_root root))) }
    ensures end { IfErr result (λ end. end ≡ SessionEnd.NoMemory) }
    ensures stays { db.new ≡ db.old }
    ensures disk { disk.new ≡ disk.old }
{
    let Some(id) = root_of(db, root) else {
        return Ok(None);
    };
    match db.source(alloc, disk, At::Root(id)) {
        Ok(spot) => Ok(Some(spot)),
        Err(DbFault::NotHeld) => Ok(None),
        Err(fault) => Err(end_of_fault(fault)),
    }
}

// The proof of a key in the map of a spot.
fn point_at<D: Disk>(
    alloc: Global,
    db: &mut Db,
    spot: &Spot,
    key: &[u8],
    disk: &mut D,
) -> Result<PointProof, SessionEnd>
    requires { is_failed db.old ≡ false }
    ensures proof { TellsContents D.words.tells → (m : Map) (n : Map) → Keeps db.old m (D.words.seen disk.old) → IsSpotOf db.old m spot.now n
        → IfOk result (λ proof. proof ≡ point_proof db.old.width n key.now) }
    ensures end { IfErr result (λ end. (end ≡ SessionEnd.NoMemory) ⊎ ((end ≡ SessionEnd.Disk) × Rose (D.words.faults disk.old) (D.words.faults disk.new))) }
    ensures stays { OnOk result (db.new ≡ db.old) }
    ensures failed { is_failed db.new ≡ true → IsErrOf result SessionEnd.Disk }
    ensures width { db.new.width ≡ db.old.width }
    ensures untouched { Untouched (D.words.seen disk.old) (D.words.seen disk.new) (D.words.moments disk.old) (D.words.moments disk.new) }
    ensures later { D.words.faults disk.old ≤ D.words.faults disk.new }
{
    let branch = db.branch();
    let mut source = DbSource { db, disk, spot };
    match prove_point(alloc, &mut source, branch, key) {
        Ok(proof) => Ok(proof),
        Err(SourceFault::Failed) => Err(SessionEnd::Disk),
        Err(SourceFault::NoMemory) => Err(SessionEnd::NoMemory),
    }
}

// The proof of a range in the map of a spot. One pair may be listed, however few are asked for.
fn range_at<D: Disk>(
    alloc: Global,
    db: &mut Db,
    spot: &Spot,
    range: &Range,
    pairs: u32,
    bytes: u32,
    disk: &mut D,
) -> Result<RangeProof, SessionEnd>
    requires { is_failed db.old ≡ false }
    ensures proof { TellsContents D.words.tells → (m : Map) (n : Map) → Keeps db.old m (D.words.seen disk.old) → IsSpotOf db.old m spot.now n
        → IfOk result (λ proof. proof ≡ range_proof db.old.width n range.now pairs bytes) }
    ensures end { IfErr result (λ end. (end ≡ SessionEnd.NoMemory) ⊎ ((end ≡ SessionEnd.Disk) × Rose (D.words.faults disk.old) (D.words.faults disk.new))) }
    ensures stays { OnOk result (db.new ≡ db.old) }
    ensures failed { is_failed db.new ≡ true → IsErrOf result SessionEnd.Disk }
    ensures width { db.new.width ≡ db.old.width }
    ensures untouched { Untouched (D.words.seen disk.old) (D.words.seen disk.new) (D.words.moments disk.old) (D.words.moments disk.new) }
    ensures later { D.words.faults disk.old ≤ D.words.faults disk.new }
{
    let branch = db.branch();
    let mut source = DbSource { db, disk, spot };
    match prove_range(alloc, &mut source, branch, range, pairs.max(1), bytes) {
        Ok(proof) => Ok(proof),
        Err(SourceFault::Failed) => Err(SessionEnd::Disk),
        Err(SourceFault::NoMemory) => Err(SessionEnd::NoMemory),
    }
}

/// A line of this sort, with bytes.
pub(crate) fn hex_line(alloc: Global, sort: &str, bytes: &[u8]) -> Result<String, SessionEnd>
    ensures { IsTextOf (sort.now ++ encode_lower bytes.now ++ 10 ∷ []) result }
{
    let digits = hex::encode(alloc, bytes)?;
    Ok(format!(in alloc; "{sort}{digits}\n")?)
}

// The line of a proof.
fn line_of_point(alloc: Global, proof: &PointProof) -> Result<String, SessionEnd>
    ensures { IsTextOf (proof_text (point_form proof.now)) result }
{
    let mut bytes = Vec::new(alloc);
    if proof.encode(&mut bytes).is_err() {
        return Err(SessionEnd::NoMemory);
    }
    hex_line(alloc, "proof ", &bytes)
}

// The line of a range proof.
fn line_of_range(alloc: Global, proof: &RangeProof) -> Result<String, SessionEnd>
    ensures { IsTextOf (range_text (range_form proof.now)) result }
{
    let mut bytes = Vec::new(alloc);
    if proof.encode(&mut bytes).is_err() {
        return Err(SessionEnd::NoMemory);
    }
    hex_line(alloc, "range ", &bytes)
}

/// The line of the proof of a key, in the map that a root names; None where the store holds no such map.
pub fn proof_line<D: Disk>(
    alloc: Global,
    db: &mut Db,
    root: RootWord,
    key: &[u8],
    disk: &mut D,
) -> Result<Option<String>, SessionEnd>
    requires { is_failed db.old ≡ false }
    ensures text { TellsContents D.words.tells → (m : Map) → Keeps db.old m (D.words.seen disk.old)
        → IfOk result (λ line. option_map string_bytes line ≡ option_map proof_text (proved db.old.width (held_maps db.old m) (seen_root root) key.now)) }
    ensures end { IfErr result (λ end. (end ≡ SessionEnd.NoMemory) ⊎ ((end ≡ SessionEnd.Disk) × Rose (D.words.faults disk.old) (D.words.faults disk.new))) }
    ensures stays { OnOk result (db.new ≡ db.old) }
    ensures failed { is_failed db.new ≡ true → IsErrOf result SessionEnd.Disk }
    ensures width { db.new.width ≡ db.old.width }
    ensures untouched { Untouched (D.words.seen disk.old) (D.words.seen disk.new) (D.words.moments disk.old) (D.words.moments disk.new) }
    ensures later { D.words.faults disk.old ≤ D.words.faults disk.new }
{
    let spot = match spot_of(alloc, db, root, disk) {
        Ok(Some(spot)) => spot,
        Ok(None) => return Ok(None),
        Err(end) => return Err(end),
    };
    let proof = match point_at(alloc, db, &spot, key, disk) {
        Ok(proof) => proof,
        Err(end) => return Err(end),
    };
    match line_of_point(alloc, &proof) {
        Ok(line) => Ok(Some(line)),
        Err(end) => Err(end),
    }
}

/// The line of the proof of a range, in the map that a root names, with so many pairs and so many bytes of them at
/// most; None where the store holds no such map.
pub fn range_line<D: Disk>(
    alloc: Global,
    db: &mut Db,
    root: RootWord,
    range: &Range,
    pairs: u32,
    bytes: u32,
    disk: &mut D,
) -> Result<Option<String>, SessionEnd>
    requires { is_failed db.old ≡ false }
    ensures text { TellsContents D.words.tells → (m : Map) → Keeps db.old m (D.words.seen disk.old)
        → IfOk result (λ line. option_map string_bytes line ≡ option_map range_text (range_proved db.old.width (held_maps db.old m) (seen_root root) range.now pairs bytes)) }
    ensures end { IfErr result (λ end. (end ≡ SessionEnd.NoMemory) ⊎ ((end ≡ SessionEnd.Disk) × Rose (D.words.faults disk.old) (D.words.faults disk.new))) }
    ensures stays { OnOk result (db.new ≡ db.old) }
    ensures failed { is_failed db.new ≡ true → IsErrOf result SessionEnd.Disk }
    ensures width { db.new.width ≡ db.old.width }
    ensures untouched { Untouched (D.words.seen disk.old) (D.words.seen disk.new) (D.words.moments disk.old) (D.words.moments disk.new) }
    ensures later { D.words.faults disk.old ≤ D.words.faults disk.new }
{
    let spot = match spot_of(alloc, db, root, disk) {
        Ok(Some(spot)) => spot,
        Ok(None) => return Ok(None),
        Err(end) => return Err(end),
    };
    let proof = match range_at(alloc, db, &spot, range, pairs, bytes, disk) {
        Ok(proof) => proof,
        Err(end) => return Err(end),
    };
    match line_of_range(alloc, &proof) {
        Ok(line) => Ok(Some(line)),
        Err(end) => Err(end),
    }
}

/// The line that a script prints of the proof of a key.
pub(crate) fn prove<D: Disk>(
    alloc: Global,
    db: &mut Db,
    root: RootWord,
    key: &[u8],
    disk: &mut D,
) -> Result<String, SessionEnd>
    requires { is_failed db.old ≡ false }
    ensures text { TellsContents D.words.tells → (m : Map) → Keeps db.old m (D.words.seen disk.old)
        → IfOk result (λ text. string_bytes text ≡ (told_proof (proved db.old.width (held_maps db.old m) (seen_root root) key.now)).text) }
    ensures end { IfErr result (λ end. (end ≡ SessionEnd.NoMemory) ⊎ ((end ≡ SessionEnd.Disk) × Rose (D.words.faults disk.old) (D.words.faults disk.new))) }
    ensures stays { OnOk result (db.new ≡ db.old) }
    ensures failed { is_failed db.new ≡ true → IsErrOf result SessionEnd.Disk }
    ensures width { db.new.width ≡ db.old.width }
    ensures untouched { Untouched (D.words.seen disk.old) (D.words.seen disk.new) (D.words.moments disk.old) (D.words.moments disk.new) }
    ensures later { D.words.faults disk.old ≤ D.words.faults disk.new }
{
    match proof_line(alloc, db, root, key, disk) {
        Ok(Some(line)) => Ok(line),
        Ok(None) => refused_line(alloc, "not held"),
        Err(end) => Err(end),
    }
}

/// The line that a script prints of the proof of a range.
pub(crate) fn range<D: Disk>(
    alloc: Global,
    db: &mut Db,
    root: RootWord,
    range: &Range,
    pairs: u32,
    bytes: u32,
    disk: &mut D,
) -> Result<String, SessionEnd>
    requires { is_failed db.old ≡ false }
    ensures text { TellsContents D.words.tells → (m : Map) → Keeps db.old m (D.words.seen disk.old)
        → IfOk result (λ text. string_bytes text ≡ (told_range (range_proved db.old.width (held_maps db.old m) (seen_root root) range.now pairs bytes)).text) }
    ensures end { IfErr result (λ end. (end ≡ SessionEnd.NoMemory) ⊎ ((end ≡ SessionEnd.Disk) × Rose (D.words.faults disk.old) (D.words.faults disk.new))) }
    ensures stays { OnOk result (db.new ≡ db.old) }
    ensures failed { is_failed db.new ≡ true → IsErrOf result SessionEnd.Disk }
    ensures width { db.new.width ≡ db.old.width }
    ensures untouched { Untouched (D.words.seen disk.old) (D.words.seen disk.new) (D.words.moments disk.old) (D.words.moments disk.new) }
    ensures later { D.words.faults disk.old ≤ D.words.faults disk.new }
{
    match range_line(alloc, db, root, range, pairs, bytes, disk) {
        Ok(Some(line)) => Ok(line),
        Ok(None) => refused_line(alloc, "not held"),
        Err(end) => Err(end),
    }
}
