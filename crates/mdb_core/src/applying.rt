// Applying a batch.
ghost use Rattle.std.specs.Prelude.{◌≡◌, ◌+◌, ◌≤◌, ◌<◌, ◌∷◌, ℕ, false, length, vec_capacity, OnOk, IfOk, IfErr, IsErrOf};
ghost use Rattle.base_model.specs.Faults.{Rose};
ghost use Rattle.disk_model.specs.Moments.{LeavesOnly, Meanwhile};
ghost use Rattle.disk_model.specs.Words.{TellsContents, TellsImages};
ghost use Rattle.trie_model.specs.Maps.{Map, limits, map_digests, map_items, root};
ghost use Rattle.trie_model.specs.Strings.{strings};
ghost use Rattle.batch_model.specs.Batch.{after_batch};
ghost use Rattle.history_model.specs.Held.{held};
ghost use Rattle.store_model.specs.Journal.{Stands};
ghost use Rattle.mdb_journal.specs.DiskMoves.{AreSynced, OthersStay};
ghost use Rattle.mdb_journal.specs.Opening.{Untouched};
ghost use Rattle.value_store.specs.Writes.{StandEither, MayAppend};
ghost use Rattle.view_model.specs.Forest.{next_number};
ghost use Rattle.view_model.specs.Calls.{directed, number_limit};
ghost use Rattle.node_table.specs.Pairs.{AreShort};
ghost use Rattle.mdb_core.specs.Stores.{Keeps, broken, held_maps, is_failed, keys_of};
ghost use Rattle.mdb_core.specs.AppliedBatches.{Applies, ApplyFails, MayNumber};

use crate::fault::told;
use crate::recording::record_commit;
use crate::writing::write_told;
use crate::{Db, DbFault, Digests, ViewId};
use bit_keys::Id;
use disk_world::Disk;
use mdb_base::{Batch, NoMemory};
use std::alloc::Global;
use std::sync::ledger::Ledger;
use trie_items::Steps;
use view_stack::ViewStack;

/// How many numbers are given at most.
const NUMBER_LIMIT: usize = 1_000_000;

/// How many bytes the payload of a batch has at most.
pub(crate) const PAYLOAD_LIMIT: u64 = 33_554_432;

/// What takes the place of the digests and of the root once a batch is written.
#[derive(Drop)]
struct Next {
    digests: Digests,
    root: Id,
}

impl Db {
    /// Lays a batch on the map: its number, and the root after it. Once it answers Ok, no crash loses it.
    ///
    /// It reads the values that the batch changes, for the history. It takes all its memory before it writes.
    pub fn apply<D: Disk, L: Ledger>(
        &mut self,
        alloc: Global,
        disk: &mut D,
        batch: Batch,
        steps: &mut Steps<L>,
    ) -> Result<(ViewId, Id), DbFault>
        ensures applied { OnOk result (Applies self.old batch) }
        ensures fault { IfErr result (ApplyFails self.old batch) }
        ensures fails { IsErrOf result DbFault.Disk → self.new ≡ broken self.old }
        ensures refused { IfErr result (λ fault. (fault ≡ DbFault.Disk → ⊥) → (self.new ≡ self.old) × Untouched (D.words.seen disk.old) (D.words.seen disk.new) (D.words.moments disk.old) (D.words.moments disk.new)) }
        ensures uncalled { IfErr result (λ fault. (fault ≡ DbFault.Disk → ⊥) → (fault ≡ DbFault.NoMemory → ⊥) → disk.new ≡ disk.old) }
        ensures works { OnOk result (is_failed self.new ≡ false) }
        ensures number { IfOk result (λ made. made.0.number ≡ next_number self.old.forest) }
        ensures views { OnOk result (self.new.forest ≡ directed self.old.forest) }
        ensures root { IfOk result (λ made. made.1 ≡ self.new.root) }
        ensures width { self.new.width ≡ self.old.width }
        ensures limits { (self.new.history.commits ≡ self.old.history.commits) × (self.new.history.weight ≡ self.old.history.weight) }
        ensures contents { TellsContents D.words.tells → (m : Map) → Keeps self.old m (D.words.seen disk.old) → OnOk result (Keeps self.new (after_batch m batch) (D.words.seen disk.new)) }
        ensures held { TellsContents D.words.tells → (m : Map) → Keeps self.old m (D.words.seen disk.old)
            → OnOk result (held_maps self.new (after_batch m batch) ≡ held self.old.history.commits self.old.history.weight (after_batch m batch ∷ held_maps self.old m)) }
        ensures read_others { TellsContents D.words.tells → OthersStay self.old.values.journal.file (D.words.seen disk.old) (D.words.seen disk.new) }
        ensures synced { TellsImages D.words.tells → AreSynced (D.words.seen disk.old) (D.words.moments disk.old) → OnOk result (AreSynced (D.words.seen disk.new) (D.words.moments disk.new)) }
        ensures left { TellsImages D.words.tells → (m : Map) → Keeps self.old m (D.words.seen disk.old) → AreSynced (D.words.seen disk.old) (D.words.moments disk.old)
            → OnOk result (LeavesOnly (λ image. Stands limits image (after_batch m batch)) (D.words.moments disk.new).now) }
        ensures others { TellsImages D.words.tells → OthersStay self.old.values.journal.file (D.words.moments disk.old).now (D.words.moments disk.new).now }
        ensures meanwhile { TellsImages D.words.tells → (m : Map) → Keeps self.old m (D.words.seen disk.old) → AreSynced (D.words.seen disk.old) (D.words.moments disk.old)
            → Meanwhile (StandEither (D.words.moments disk.old) self.old.values.journal.file m (after_batch m batch)) (D.words.moments disk.old) (D.words.moments disk.new) }
        ensures ticks { (m : Map) → self.old.digests ≡ map_digests m → OnOk result (steps.new ≡ steps.old + length (strings self.old.width (map_items (after_batch m batch)))) }
        ensures later { D.words.faults disk.old ≤ D.words.faults disk.new }
        ensures disk { IsErrOf result DbFault.Disk → Rose (D.words.faults disk.old) (D.words.faults disk.new) }
    {
        let next = match self.prepare(alloc, &batch, steps) {
            Ok(next) => next,
            Err(fault) => return Err(fault),
        };
        if make_room(&mut self.views, &mut self.roots).is_err() {
            return Err(DbFault::NoMemory);
        }
        match write_told(alloc, disk, &mut self.values, &batch, self.history.limit()) {
            Ok(deltas) => {
                let Next { digests, root } = next;
                self.digests = digests;
                self.root = root;
                self.nodes = None;
                record_commit(&mut self.history, deltas, root);
                let id = self.views.direct();
                self.roots.push_reserved(root);
                Ok((id, root))
            }
            Err(fault) => Err(told(fault)),
        }
    }

    /// Tests what can be told before the disk is called, and makes what will take the place of the
    /// digests and of the root.
    fn prepare<L: Ledger>(
        &self,
        alloc: Global,
        batch: &Batch,
        steps: &mut Steps<L>,
    ) -> Result<Next, DbFault>
        ensures may { OnOk result (MayNumber self.now × MayAppend self.now.values batch.now) }
        ensures fault { IfErr result (ApplyFails self.now batch.now) }
        ensures not_disk { IsErrOf result DbFault.Disk → ⊥ }
        ensures digests { (m : Map) → self.now.digests ≡ map_digests m → IfOk result (λ next. next.digests ≡ map_digests (after_batch m batch.now)) }
        ensures short { IfOk result (λ next. AreShort (keys_of next.digests)) }
        ensures root { IfOk result (λ next. (m : Map) → next.digests ≡ map_digests m → next.root ≡ root self.now.width m) }
        ensures cost { (m : Map) → self.now.digests ≡ map_digests m → OnOk result (steps.new ≡ steps.old + length (strings self.now.width (map_items (after_batch m batch.now)))) }
    {
        if let Err(fault) = self.admit(batch) {
            return Err(fault);
        }
        match self.after(alloc, batch, steps) {
            Ok(next) => Ok(next),
            Err(_) => Err(DbFault::NoMemory),
        }
    }

    /// Whether the store works, has a number left, and may write so long a batch.
    fn admit(&self, batch: &Batch) -> Result<(), DbFault>
        ensures may { OnOk result (MayNumber self.now × MayAppend self.now.values batch.now) }
        ensures fault { IfErr result (ApplyFails self.now batch.now) }
        ensures not_disk { IsErrOf result DbFault.Disk → ⊥ }
    {
        if self.values.failed() {
            return Err(DbFault::Failed);
        }
        if self.roots.len() >= NUMBER_LIMIT {
            return Err(DbFault::TooMany);
        }
        let bytes = batch.payload_len();
        if bytes > PAYLOAD_LIMIT {
            return Err(DbFault::TooLarge(bytes));
        }
        Ok(())
    }

    /// The digests and the root after a batch.
    fn after<L: Ledger>(
        &self,
        alloc: Global,
        batch: &Batch,
        steps: &mut Steps<L>,
    ) -> Result<Next, NoMemory>
        ensures digests { (m : Map) → self.now.digests ≡ map_digests m → IfOk result (λ next. next.digests ≡ map_digests (after_batch m batch.now)) }
        ensures short { IfOk result (λ next. AreShort (keys_of next.digests)) }
        ensures root { IfOk result (λ next. (m : Map) → next.digests ≡ map_digests m → next.root ≡ root self.now.width m) }
        ensures cost { (m : Map) → self.now.digests ≡ map_digests m → OnOk result (steps.new ≡ steps.old + length (strings self.now.width (map_items (after_batch m batch.now)))) }
    {
        let mut digests = self.digests.copy(alloc)?;
        digests.lay(alloc, batch)?;
        let root = digests.counted_root(alloc, self.branch, steps)?;
        Ok(Next { digests, root })
    }
}

/// Makes room for the number of one direct batch, and for its root.
fn make_room(views: &mut ViewStack, roots: &mut Vec<Id>) -> Result<(), NoMemory>
    requires few { length views.old.forest.views < number_limit }
    ensures forest { views.new.forest ≡ views.old.forest }
    ensures roots { roots.new.items ≡ roots.old.items }
    ensures room { OnOk result (0 < views.new.room) }
    ensures spare { OnOk result (length roots.new.items < vec_capacity roots.new) }
{
    if views.room().is_err() {
        return Err(NoMemory);
    }
    if roots.reserve(1).is_err() {
        return Err(NoMemory);
    }
    Ok(())
}
