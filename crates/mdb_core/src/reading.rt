// What is read of the map and of its views.
ghost use Rattle.std.specs.Prelude.{◌≡◌, ◌⊎◌, ◌≤◌, false, Some, None, option_map, IfOk, OnOk, IfErr, IfSome, IsErrOf, MatchOption};
ghost use Rattle.std.specs.FinMap as map_of;
ghost use Rattle.base_model.specs.Faults.{Rose};
ghost use Rattle.disk_model.specs.Words.{TellsContents};
ghost use Rattle.trie_model.specs.Maps.{Map, map_digests};
ghost use Rattle.batch_model.specs.Batch.{after_batch};
ghost use Rattle.view_model.specs.Forest.{Live, state};
ghost use Rattle.view_model.specs.Calls.{view_refused, parent_refused};
ghost use Rattle.view_model.specs.Maps.{laid, view_map, parent_map};
ghost use Rattle.view_model.specs.Standing.{AreLive};
ghost use Rattle.view_stack.specs.ViewAnswers.{state_told, number_in, numbers};
ghost use Rattle.mdb_journal.specs.Opening.{Untouched};
ghost use Rattle.node_table.specs.Pairs.{AreShort};
ghost use Rattle.mdb_core.specs.Stores.{Keeps, broken, is_failed, keys_of, root_at};
ghost use Rattle.mdb_core.specs.Places.{GetFails, MayRead, fault_of_refusal, map_at};

use crate::fault::told;
use crate::naming::Found;
use crate::{At, Db, DbFault, Digests, ViewId, ViewState};
use bit_keys::Id;
use disk_world::Disk;
use mdb_base::{Batch, Change, NoMemory};
use std::alloc::Global;

impl Db {
    /// What has become of a view or of a direct batch; None where its number was never given.
    pub fn state(&self, id: ViewId) -> Option<ViewState>
        ensures { result ≡ option_map state_told (state self.now.forest id.number) }
    {
        self.views.state(id)
    }

    /// The root of the map of a live view.
    pub fn root_of(&self, id: ViewId) -> Result<Id, DbFault>
        ensures { MatchOption (view_refused self.now.forest id.number) (result ≡ Ok (root_at self.now.roots id.number)) (λ r. result ≡ Err (fault_of_refusal r)) }
    {
        match self.live(id) {
            Ok(()) => Ok(self.known_root(id)),
            Err(fault) => Err(fault),
        }
    }

    /// The root that was made with a live view.
    pub(crate) fn known_root(&self, id: ViewId) -> Id
        requires { state self.now.forest id.number ≡ Some Live }
        ensures { result ≡ root_at self.now.roots id.number }
    {
        self.roots[(id.number - 1) as usize]
    }

    /// Whether a view is live, or why nothing is done with it.
    pub(crate) fn live(&self, id: ViewId) -> Result<(), DbFault>
        ensures { MatchOption (view_refused self.now.forest id.number) (result ≡ Ok tt) (λ r. result ≡ Err (fault_of_refusal r)) }
    {
        match self.views.state(id) {
            None => Err(DbFault::Unknown),
            Some(ViewState::Live) => Ok(()),
            Some(state) => Err(DbFault::NotLive(state)),
        }
    }

    /// The digests of the map of a parent.
    pub(crate) fn digests_at(
        &self,
        alloc: Global,
        parent: Option<ViewId>,
    ) -> Result<Digests, NoMemory>
        requires { parent_refused self.now.forest (number_in parent) ≡ None }
        ensures digests { (m : Map) → self.now.digests ≡ map_digests m → IfOk result (λ digests. digests ≡ map_digests (parent_map self.now.forest m (number_in parent))) }
        ensures short { IfOk result (λ digests. AreShort (keys_of digests)) }
    {
        let mut digests = self.digests.copy(alloc)?;
        if let Some(id) = parent {
            let ids = self.views.chain(alloc, id)?;
            self.lay_all(alloc, &mut digests, &ids)?;
        }
        Ok(digests)
    }

    /// Lays the batches of live views on the digests of a map, one after another.
    fn lay_all(&self, alloc: Global, digests: &mut Digests, ids: &[ViewId]) -> Result<(), NoMemory>
        requires { AreLive self.now.forest (numbers ids.now) }
        ensures laid { (m : Map) → digests.old ≡ map_digests m → OnOk result (digests.new ≡ map_digests (laid self.now.forest m (numbers ids.now))) }
        ensures short { AreShort (keys_of digests.old) → OnOk result (AreShort (keys_of digests.new)) }
    {
        for id in ids {
            digests.lay(alloc, self.views.batch(*id))?;
        }
        Ok(())
    }

    /// The value of a key; None where the key is not there.
    pub fn get<D: Disk>(
        &mut self,
        alloc: Global,
        disk: &mut D,
        at: At,
        key: &[u8],
    ) -> Result<Option<Vec<u8>>, DbFault>
        ensures value { TellsContents D.words.tells → (m : Map) → Keeps self.old m (D.words.seen disk.old)
            → IfOk result (λ value. IfSome (map_at self.old m at) (λ n. option_map (λ v. v.items) value ≡ map_of.get n key.now)) }
        ensures may { OnOk result (MayRead self.old at) }
        ensures fault { IfErr result (GetFails self.old at) }
        ensures fails { IsErrOf result DbFault.Disk → self.new ≡ broken self.old }
        ensures stays { (IsErrOf result DbFault.Disk → ⊥) → self.new ≡ self.old }
        ensures untouched { Untouched (D.words.seen disk.old) (D.words.seen disk.new) (D.words.moments disk.old) (D.words.moments disk.new) }
        ensures later { D.words.faults disk.old ≤ D.words.faults disk.new }
        ensures disk { IsErrOf result DbFault.Disk → Rose (D.words.faults disk.old) (D.words.faults disk.new) }
    {
        match self.find(alloc, at) {
            Ok(Found::Store) => self.get_stored(alloc, disk, key),
            Ok(Found::View(id)) => self.get_proposed(alloc, disk, id, key),
            Ok(Found::Past(undo)) => self.get_past(alloc, disk, &undo, key),
            Ok(Found::Empty) => Ok(None),
            Err(fault) => Err(fault),
        }
    }

    /// The value that the store has at a key.
    fn get_stored<D: Disk>(
        &mut self,
        alloc: Global,
        disk: &mut D,
        key: &[u8],
    ) -> Result<Option<Vec<u8>>, DbFault>
        requires works { is_failed self.old ≡ false }
        ensures value { TellsContents D.words.tells → (m : Map) → Keeps self.old m (D.words.seen disk.old)
            → IfOk result (λ value. option_map (λ v. v.items) value ≡ map_of.get m key.now) }
        ensures fault { IfErr result (λ fault. (fault ≡ DbFault.Disk) ⊎ (fault ≡ DbFault.NoMemory)) }
        ensures fails { IsErrOf result DbFault.Disk → self.new ≡ broken self.old }
        ensures stays { (IsErrOf result DbFault.Disk → ⊥) → self.new ≡ self.old }
        ensures untouched { Untouched (D.words.seen disk.old) (D.words.seen disk.new) (D.words.moments disk.old) (D.words.moments disk.new) }
        ensures later { D.words.faults disk.old ≤ D.words.faults disk.new }
        ensures disk { IsErrOf result DbFault.Disk → Rose (D.words.faults disk.old) (D.words.faults disk.new) }
    {
        match self.values.get(alloc, disk, key) {
            Ok(value) => Ok(value),
            Err(fault) => Err(told(fault)),
        }
    }

    /// The value that a past map has at a key, to which a batch leads back.
    pub(crate) fn get_past<D: Disk>(
        &mut self,
        alloc: Global,
        disk: &mut D,
        undo: &Batch,
        key: &[u8],
    ) -> Result<Option<Vec<u8>>, DbFault>
        requires works { is_failed self.old ≡ false }
        ensures value { TellsContents D.words.tells → (m : Map) → Keeps self.old m (D.words.seen disk.old)
            → IfOk result (λ value. option_map (λ v. v.items) value ≡ map_of.get (after_batch m undo.now) key.now) }
        ensures fault { IfErr result (λ fault. (fault ≡ DbFault.Disk) ⊎ (fault ≡ DbFault.NoMemory)) }
        ensures fails { IsErrOf result DbFault.Disk → self.new ≡ broken self.old }
        ensures stays { (IsErrOf result DbFault.Disk → ⊥) → self.new ≡ self.old }
        ensures untouched { Untouched (D.words.seen disk.old) (D.words.seen disk.new) (D.words.moments disk.old) (D.words.moments disk.new) }
        ensures later { D.words.faults disk.old ≤ D.words.faults disk.new }
        ensures disk { IsErrOf result DbFault.Disk → Rose (D.words.faults disk.old) (D.words.faults disk.new) }
    {
        match value_in(alloc, undo, key) {
            Ok(Some(value)) => Ok(value),
            Ok(None) => self.get_stored(alloc, disk, key),
            Err(_) => Err(DbFault::NoMemory),
        }
    }

    /// The value that a live view has at a key.
    fn get_proposed<D: Disk>(
        &mut self,
        alloc: Global,
        disk: &mut D,
        id: ViewId,
        key: &[u8],
    ) -> Result<Option<Vec<u8>>, DbFault>
        requires works { is_failed self.old ≡ false }
        requires live { state self.old.forest id.number ≡ Some Live }
        ensures value { TellsContents D.words.tells → (m : Map) → Keeps self.old m (D.words.seen disk.old)
            → IfOk result (λ value. option_map (λ v. v.items) value ≡ map_of.get (view_map self.old.forest m id.number) key.now) }
        ensures fault { IfErr result (λ fault. (fault ≡ DbFault.Disk) ⊎ (fault ≡ DbFault.NoMemory)) }
        ensures fails { IsErrOf result DbFault.Disk → self.new ≡ broken self.old }
        ensures stays { (IsErrOf result DbFault.Disk → ⊥) → self.new ≡ self.old }
        ensures untouched { Untouched (D.words.seen disk.old) (D.words.seen disk.new) (D.words.moments disk.old) (D.words.moments disk.new) }
        ensures later { D.words.faults disk.old ≤ D.words.faults disk.new }
        ensures disk { IsErrOf result DbFault.Disk → Rose (D.words.faults disk.old) (D.words.faults disk.new) }
    {
        match self.proposed(alloc, id, key) {
            Ok(Some(value)) => Ok(value),
            Ok(None) => self.get_stored(alloc, disk, key),
            Err(_) => Err(DbFault::NoMemory),
        }
    }

    /// What a live view, or one on which it stands, makes of a key; None where they leave it alone.
    fn proposed(
        &self,
        alloc: Global,
        id: ViewId,
        key: &[u8],
    ) -> Result<Option<Option<Vec<u8>>>, NoMemory>
        requires { state self.now.forest id.number ≡ Some Live }
        ensures { (m : Map) → IfOk result (λ found. MatchOption found
            (map_of.get (view_map self.now.forest m id.number) key.now ≡ map_of.get m key.now)
            (λ value. map_of.get (view_map self.now.forest m id.number) key.now ≡ option_map (λ v. v.items) value)) }
    {
        let ids = self.views.chain(alloc, id)?;
        self.last_change(alloc, &ids, key)
    }

    /// What the last of these views that has a change of a key makes of it.
    fn last_change(
        &self,
        alloc: Global,
        ids: &[ViewId],
        key: &[u8],
    ) -> Result<Option<Option<Vec<u8>>>, NoMemory>
        requires { AreLive self.now.forest (numbers ids.now) }
        ensures { (m : Map) → IfOk result (λ found. MatchOption found
            (map_of.get (laid self.now.forest m (numbers ids.now)) key.now ≡ map_of.get m key.now)
            (λ value. map_of.get (laid self.now.forest m (numbers ids.now)) key.now ≡ option_map (λ v. v.items) value)) }
    {
        let mut left = ids.len();
        while left > 0 {
            left -= 1;
            if let Some(value) = value_in(alloc, self.views.batch(ids[left]), key)? {
                return Ok(Some(value));
            }
        }
        Ok(None)
    }
}

/// What a batch makes of a key; None where it leaves it alone.
fn value_in(alloc: Global, batch: &Batch, key: &[u8]) -> Result<Option<Option<Vec<u8>>>, NoMemory>
    ensures { (m : Map) → IfOk result (λ found. MatchOption found
        (map_of.get (after_batch m batch.now) key.now ≡ map_of.get m key.now)
        (λ value. map_of.get (after_batch m batch.now) key.now ≡ option_map (λ v. v.items) value)) }
{
    match change_at(batch, key) {
        None => Ok(None),
        Some(change) => {
            let Change { key: _, value } = change.copy(alloc)?;
            Ok(Some(value))
        }
    }
}

/// The change of a key, if a batch has one.
fn change_at<'b>(batch: &'b Batch, key: &[u8]) -> Option<&'b Change>
    ensures { (m : Map) → MatchOption result
        (map_of.get (after_batch m batch.now) key.now ≡ map_of.get m key.now)
        (λ change. map_of.get (after_batch m batch.now) key.now ≡ change.now.value) }
{
    let changes = batch.changes();
    match changes.binary_search_by(|change| change.key.as_slice().cmp(key)) {
        Ok(at) => Some(&changes[at]),
        Err(_) => None,
    }
}
