// Committing a view.
ghost use Rattle.std.specs.Prelude.{◌≡◌, ◌≤◌, ◌∷◌, false, Some, OnOk, IfOk, IfErr, IsErrOf};
ghost use Rattle.base_model.specs.Faults.{Rose};
ghost use Rattle.disk_model.specs.Moments.{LeavesOnly, Meanwhile};
ghost use Rattle.disk_model.specs.Words.{TellsContents, TellsImages};
ghost use Rattle.trie_model.specs.Maps.{Map, limits, map_digests};
ghost use Rattle.batch_model.specs.Batch.{after_batch};
ghost use Rattle.history_model.specs.Held.{held};
ghost use Rattle.store_model.specs.Journal.{Stands};
ghost use Rattle.view_model.specs.Forest.{Live, state};
ghost use Rattle.view_model.specs.Calls.{committed};
ghost use Rattle.view_model.specs.Maps.{changes_of};
ghost use Rattle.mdb_journal.specs.DiskMoves.{AreSynced, OthersStay};
ghost use Rattle.mdb_journal.specs.Opening.{Untouched};
ghost use Rattle.value_store.specs.Writes.{StandEither};
ghost use Rattle.node_table.specs.Pairs.{AreShort};
ghost use Rattle.mdb_core.specs.Stores.{Keeps, broken, held_maps, is_failed, keys_of, root_at};
ghost use Rattle.mdb_core.specs.Proposals.{Takes, TakeFails, MayTake};

use crate::fault::told;
use crate::recording::record_commit;
use crate::writing::write_told;
use crate::{Db, DbFault, Digests, ViewId};
use bit_keys::Id;
use disk_world::Disk;
use mdb_base::NoMemory;
use std::alloc::Global;

impl Db {
    /// Commits a view whose parent is the store as it is now: the root after it. Once it answers Ok, no
    /// crash loses it. The root was made with the view.
    ///
    /// It reads the values that the view changes, for the history. It takes all its memory before it writes.
    pub fn commit<D: Disk>(
        &mut self,
        alloc: Global,
        disk: &mut D,
        id: ViewId,
    ) -> Result<Id, DbFault>
        ensures taken { OnOk result (Takes self.old id.number) }
        ensures fault { IfErr result (TakeFails self.old id.number) }
        ensures fails { IsErrOf result DbFault.Disk → self.new ≡ broken self.old }
        ensures refused { IfErr result (λ fault. (fault ≡ DbFault.Disk → ⊥) → (self.new ≡ self.old) × Untouched (D.words.seen disk.old) (D.words.seen disk.new) (D.words.moments disk.old) (D.words.moments disk.new)) }
        ensures uncalled { IfErr result (λ fault. (fault ≡ DbFault.Disk → ⊥) → (fault ≡ DbFault.NoMemory → ⊥) → disk.new ≡ disk.old) }
        ensures works { OnOk result (is_failed self.new ≡ false) }
        ensures views { OnOk result (self.new.forest ≡ committed self.old.forest id.number) }
        ensures roots { self.new.roots ≡ self.old.roots }
        ensures root { IfOk result (λ root. (root ≡ self.new.root) × (root ≡ root_at self.old.roots id.number)) }
        ensures width { self.new.width ≡ self.old.width }
        ensures limits { (self.new.history.commits ≡ self.old.history.commits) × (self.new.history.weight ≡ self.old.history.weight) }
        ensures contents { TellsContents D.words.tells → (m : Map) → Keeps self.old m (D.words.seen disk.old) → OnOk result (Keeps self.new (after_batch m (changes_of self.old.forest id.number)) (D.words.seen disk.new)) }
        ensures held { TellsContents D.words.tells → (m : Map) → Keeps self.old m (D.words.seen disk.old)
            → OnOk result (held_maps self.new (after_batch m (changes_of self.old.forest id.number)) ≡ held self.old.history.commits self.old.history.weight (after_batch m (changes_of self.old.forest id.number) ∷ held_maps self.old m)) }
        ensures read_others { TellsContents D.words.tells → OthersStay self.old.values.journal.file (D.words.seen disk.old) (D.words.seen disk.new) }
        ensures synced { TellsImages D.words.tells → AreSynced (D.words.seen disk.old) (D.words.moments disk.old) → OnOk result (AreSynced (D.words.seen disk.new) (D.words.moments disk.new)) }
        ensures left { TellsImages D.words.tells → (m : Map) → Keeps self.old m (D.words.seen disk.old) → AreSynced (D.words.seen disk.old) (D.words.moments disk.old)
            → OnOk result (LeavesOnly (λ image. Stands limits image (after_batch m (changes_of self.old.forest id.number))) (D.words.moments disk.new).now) }
        ensures others { TellsImages D.words.tells → OthersStay self.old.values.journal.file (D.words.moments disk.old).now (D.words.moments disk.new).now }
        ensures meanwhile { TellsImages D.words.tells → (m : Map) → Keeps self.old m (D.words.seen disk.old) → AreSynced (D.words.seen disk.old) (D.words.moments disk.old)
            → Meanwhile (StandEither (D.words.moments disk.old) self.old.values.journal.file m (after_batch m (changes_of self.old.forest id.number))) (D.words.moments disk.old) (D.words.moments disk.new) }
        ensures later { D.words.faults disk.old ≤ D.words.faults disk.new }
        ensures disk { IsErrOf result DbFault.Disk → Rose (D.words.faults disk.old) (D.words.faults disk.new) }
    {
        let digests = match self.admit_commit(alloc, id) {
            Ok(digests) => digests,
            Err(fault) => return Err(fault),
        };
        let root = self.known_root(id);
        match write_told(
            alloc,
            disk,
            &mut self.values,
            self.views.batch(id),
            self.history.limit(),
        ) {
            Ok(deltas) => {
                self.digests = digests;
                self.root = root;
                self.nodes = None;
                record_commit(&mut self.history, deltas, root);
                self.views.committed(id);
                Ok(root)
            }
            Err(fault) => Err(told(fault)),
        }
    }

    /// Tests what can be told before the disk is called, and makes what will take the place of the digests.
    fn admit_commit(&self, alloc: Global, id: ViewId) -> Result<Digests, DbFault>
        ensures may { OnOk result (MayTake self.now id.number) }
        ensures fault { IfErr result (TakeFails self.now id.number) }
        ensures not_disk { IsErrOf result DbFault.Disk → ⊥ }
        ensures digests { (m : Map) → self.now.digests ≡ map_digests m → IfOk result (λ digests. digests ≡ map_digests (after_batch m (changes_of self.now.forest id.number))) }
        ensures short { IfOk result (λ digests. AreShort (keys_of digests)) }
    {
        if let Err(fault) = self.admit_next(alloc, id) {
            return Err(fault);
        }
        match self.digests_after(alloc, id) {
            Ok(digests) => Ok(digests),
            Err(_) => Err(DbFault::NoMemory),
        }
    }

    /// Whether the store works, and the view is live and stands on the store as it is now.
    fn admit_next(&self, alloc: Global, id: ViewId) -> Result<(), DbFault>
        ensures may { OnOk result (MayTake self.now id.number) }
        ensures fault { IfErr result (TakeFails self.now id.number) }
        ensures not_disk { IsErrOf result DbFault.Disk → ⊥ }
    {
        if self.values.failed() {
            return Err(DbFault::Failed);
        }
        if let Err(fault) = self.live(id) {
            return Err(fault);
        }
        match self.views.chain(alloc, id) {
            Ok(ids) if ids.len() == 1 => Ok(()),
            Ok(_) => Err(DbFault::NotParent),
            Err(_) => Err(DbFault::NoMemory),
        }
    }

    /// The digests after the batch of a live view.
    fn digests_after(&self, alloc: Global, id: ViewId) -> Result<Digests, NoMemory>
        requires { state self.now.forest id.number ≡ Some Live }
        ensures digests { (m : Map) → self.now.digests ≡ map_digests m → IfOk result (λ digests. digests ≡ map_digests (after_batch m (changes_of self.now.forest id.number))) }
        ensures short { IfOk result (λ digests. AreShort (keys_of digests)) }
    {
        let mut digests = self.digests.copy(alloc)?;
        digests.lay(alloc, self.views.batch(id))?;
        Ok(digests)
    }
}
