// Lines that tell of the proof of changes.
ghost use Rattle.std.specs.Prelude.{◌≡◌, ◌≤◌, ◌<◌, Result, Ok, false, IfOk, IfErr, OnOk, length};
ghost use Rattle.base_model.specs.Faults.{Rose};
ghost use Rattle.disk_model.specs.Words.{TellsContents};
ghost use Rattle.store_model.specs.Refusals.{Refusal};
ghost use Rattle.trie_model.specs.Maps.{Map, limits};
ghost use Rattle.range_model.specs.Ranges.{IsRange};
ghost use Rattle.proof_model.specs.CheckedBytes.{change_checked};
ghost use Rattle.proof_model.specs.ChangeLaws.{IsChangeClaim};
ghost use Rattle.proof_model.specs.ChangeProofs.{ChangeProof as ShownChanges, change_refusal};
ghost use Rattle.bit_keys.specs.Branch.{width_of};
ghost use Rattle.mdb_journal.specs.Opening.{Untouched};
ghost use Rattle.mdb_core.specs.Stores.{Keeps, is_failed};
ghost use Rattle.change_proof.specs.CheckAnswers.{TellsOr};
ghost use Rattle.run_model.specs.OutsideThings.{DiskSeen, disk_seen};
ghost use Rattle.run_model.specs.Verify.{changes_verdict};
ghost use Rattle.run_model.specs.Store.{IsFound};
ghost use Rattle.verify_run.specs.Checks.{IsRefusedOr, IsNotShown, IsCounted};
ghost use Rattle.verify_run.specs.LocalStores.{IsLocal, Opens, LeavesDisk};
ghost use Rattle.verify_run.specs.declared.proof_fault.ProofFault.TheVariants.{Store as store_fault};

use crate::proof_fault::{ProofFault, fault_of_check, fault_of_wire};
use crate::store::opened;
use bit_keys::{Branch, Id, Range};
use change_proof::verify;
use disk_world::Disk;
use mdb_core::{Db, DbFault, DbSource, Spot};
use proof_check::{ChangeProof, VerifyFault};
use std::alloc::Global;
use std::marker::Brand;
use std::sync::ledger::{Blank, Ledger};
use trie_items::Steps;

// How many changes a proof shows.
fn changes_of(proof: &ChangeProof) -> u64
    ensures { result ≡ length proof.now.changes }
{
    proof.changes.len() as u64
}

// Checks a proof against the map of a store, with a count of the nodes that it hashes.
fn check<D: Disk, L: Ledger>(
    alloc: Global,
    branch: Branch,
    root: &Id,
    range: &Range,
    db: &mut Db,
    disk: &mut D,
    proof: &ChangeProof,
    blank: Blank,
) -> Result<(), VerifyFault>
    requires name { blank.name ≡ L.name }
    requires parts { blank.parts ≡ L.parts }
    requires some { 0 < blank.parts }
    requires claim { IsChangeClaim limits (width_of branch) proof.now }
    ensures told { TellsContents D.words.tells → (m : Map) → Keeps db.old m (D.words.seen disk.old) → TellsOr result (change_refusal (width_of branch) range.now m root.now proof.now) }
    ensures failed { is_failed db.old ≡ false → IfErr result (λ fault. fault ≡ VerifyFault.Failed → Rose (D.words.faults disk.old) (D.words.faults disk.new)) }
    ensures stays { is_failed db.old ≡ false → OnOk result (db.new ≡ db.old) }
    ensures untouched { Untouched (D.words.seen disk.old) (D.words.seen disk.new) (D.words.moments disk.old) (D.words.moments disk.new) }
    ensures later { D.words.faults disk.old ≤ D.words.faults disk.new }
{
    let mut steps = Steps::<L>::new(blank);
    let spot = Spot::Store;
    let mut local = DbSource {
        db,
        disk,
        spot: &spot,
    };
    verify(alloc, branch, root, range, &mut local, proof, &mut steps)
}

// How many changes the bytes of a proof show, against the map of a store.
fn changes_in<D: Disk>(
    alloc: Global,
    branch: Branch,
    root: &Id,
    range: &Range,
    bytes: &[u8],
    db: &mut Db,
    disk: &mut D,
) -> Result<u64, ProofFault>
    ensures ok { TellsContents D.words.tells → (m : Map) → Keeps db.old m (D.words.seen disk.old)
        → IfOk result (λ n. (p : ShownChanges) × (change_checked limits (width_of branch) root.now range.now m bytes.now ≡ Ok p) × (n ≡ length p.changes)) }
    ensures err { TellsContents D.words.tells → (m : Map) → Keeps db.old m (D.words.seen disk.old)
        → IfErr result (IsRefusedOr (change_checked limits (width_of branch) root.now range.now m bytes.now)) }
    ensures failed { is_failed db.old ≡ false → IfErr result (λ fault. (f : DbFault) → fault ≡ store_fault f → (f ≡ DbFault.Disk) × Rose (D.words.faults disk.old) (D.words.faults disk.new)) }
    ensures stays { is_failed db.old ≡ false → OnOk result (db.new ≡ db.old) }
    ensures untouched { Untouched (D.words.seen disk.old) (D.words.seen disk.new) (D.words.moments disk.old) (D.words.moments disk.new) }
    ensures later { D.words.faults disk.old ≤ D.words.faults disk.new }
{
    let proof = match ChangeProof::decode(alloc, bytes, branch) {
        Ok(proof) => proof,
        Err(fault) => return Err(fault_of_wire(fault)),
    };
    match check::<D, Brand>(alloc, branch, root, range, db, disk, &proof, Blank::new(1)) {
        Ok(()) => Ok(changes_of(&proof)),
        Err(fault) => Err(fault_of_check(fault)),
    }
}

/// How many changes the bytes of a proof show, against the map of the store of a disk, which is opened unless it was.
pub(crate) fn changes_at<D: Disk>(
    alloc: Global,
    branch: Branch,
    root: &Id,
    range: &Range,
    bytes: &[u8],
    store: &mut Option<Db>,
    disk: &mut D,
) -> Result<u64, ProofFault>
    ensures opens { (before : DiskSeen) → IsLocal (width_of branch) before (disk_seen D.words disk.old) store.old
        → IfOk result (λ n. Opens (width_of branch) before (disk_seen D.words disk.new) store.new) }
    ensures ok { (before : DiskSeen) → IsLocal (width_of branch) before (disk_seen D.words disk.old) store.old
        → IfOk result (λ n. (found : Result Map Refusal) → IsFound (width_of branch) before found → IsCounted n (changes_verdict (width_of branch) root.now range.now bytes.now found)) }
    ensures fails { (before : DiskSeen) → IsLocal (width_of branch) before (disk_seen D.words disk.old) store.old
        → IfErr result (LeavesDisk (width_of branch) before (disk_seen D.words disk.new)) }
    ensures err { (before : DiskSeen) → IsLocal (width_of branch) before (disk_seen D.words disk.old) store.old
        → IfErr result (λ fault. (found : Result Map Refusal) → IsFound (width_of branch) before found → IsNotShown fault (changes_verdict (width_of branch) root.now range.now bytes.now found)) }
    ensures later { D.words.faults disk.old ≤ D.words.faults disk.new }
{
    let mut db = match opened(alloc, branch, store.take(), disk) {
        Ok(db) => db,
        Err(fault) => return Err(ProofFault::Store(fault)),
    };
    let shown = changes_in(alloc, branch, root, range, bytes, &mut db, disk);
    *store = Some(db);
    shown
}
