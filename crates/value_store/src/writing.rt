// Writing a batch.
ghost use Rattle.std.specs.Prelude.{◌≡◌, ◌≢◌, ◌+◌, ◌≤◌, false, length, IfOk, OnOk, IfErr, IsErrOf};
ghost use Rattle.base_model.specs.Faults.{Rose};
ghost use Rattle.disk_model.specs.Moments.{LeavesOnly, Meanwhile};
ghost use Rattle.disk_model.specs.Words.{TellsContents, TellsImages};
ghost use Rattle.trie_model.specs.Maps.{Map, limits};
ghost use Rattle.batch_model.specs.Batch.{after_batch, batch_form};
ghost use Rattle.store_model.specs.Journal.{Stands};
ghost use Rattle.mdb_journal.specs.Journal.{payload_in, payload_limit};
ghost use Rattle.mdb_journal.specs.DiskMoves.{AreSynced, OthersStay};
ghost use Rattle.value_store.specs.Values.{Keeps, HasKeys, broken};
ghost use Rattle.value_store.specs.Writes.{Writes, WriteFails, StandEither};

use crate::placing::{add_room, len_after, settle};
use crate::records::BATCH;
use crate::{ValueFault, ValueStore};
use disk_world::Disk;
use mdb_base::{Batch, NoMemory, uvarint_len};
use std::alloc::Global;

// How many bytes a payload has at most.
const PAYLOAD_LIMIT: u64 = 33_554_432;

// How many pairs a store has at most.
const PAIRS_LIMIT: u64 = 1_000_000;

// A room for the record of a batch: its payload, with five bytes in front and one behind.
fn room_of(alloc: Global, batch: &Batch) -> Result<Vec<u8>, NoMemory>
    requires { length (batch_form batch.now) ≤ payload_limit }
    ensures payload { IfOk result (λ room. payload_in room.items ≡ batch_form batch.now) }
    ensures long { IfOk result (λ room. length room.items ≡ length (batch_form batch.now) + 6) }
{
    let mut room = Vec::with_capacity(alloc, batch.payload_len() as usize + 6)?;
    room.extend_from_slice(&[0; 5])?;
    batch.write(&mut room)?;
    room.push(0)?;
    Ok(room)
}

impl ValueStore {
    /// Whether a batch may be written, or why not: what `write` tells before it takes memory or calls the disk.
    pub fn admits(&self, batch: &Batch) -> Result<(), ValueFault>
        ensures admitted { OnOk result (Writes self.now batch.now) }
        ensures fault { IfErr result (WriteFails self.now batch.now) }
        ensures never { IfErr result (λ fault. (fault ≢ ValueFault.Disk) × (fault ≢ ValueFault.NoMemory)) }
    {
        if self.journal.failed() {
            return Err(ValueFault::Failed);
        }
        let count = batch.payload_len();
        if count > PAYLOAD_LIMIT {
            return Err(ValueFault::TooLarge(count));
        }
        if len_after(&self.index, batch.changes()) > PAIRS_LIMIT {
            return Err(ValueFault::Full);
        }
        Ok(())
    }

    /// Lays a batch on the map, by one record of the journal. Once it answers Ok, no crash loses it.
    ///
    /// It takes all its memory before it writes. Deleting a key that is not there changes nothing.
    pub fn write<D: Disk>(
        &mut self,
        alloc: Global,
        disk: &mut D,
        batch: &Batch,
    ) -> Result<(), ValueFault>
        ensures written { OnOk result (Writes self.old batch.now) }
        ensures fault { IfErr result (WriteFails self.old batch.now) }
        ensures fails { IsErrOf result ValueFault.Disk → self.new ≡ broken self.old }
        ensures refused { IfErr result (λ fault. (fault ≡ ValueFault.Disk → ⊥) → (self.new ≡ self.old) × (disk.new ≡ disk.old)) }
        ensures works { OnOk result (self.new.journal.failed ≡ false) }
        ensures keys { (m : Map) → HasKeys self.old m → OnOk result (HasKeys self.new (after_batch m batch.now)) }
        ensures contents { TellsContents D.words.tells → (m : Map) → Keeps self.old m (D.words.seen disk.old) → OnOk result (Keeps self.new (after_batch m batch.now) (D.words.seen disk.new)) }
        ensures read_others { TellsContents D.words.tells → OthersStay self.old.journal.file (D.words.seen disk.old) (D.words.seen disk.new) }
        ensures synced { TellsImages D.words.tells → AreSynced (D.words.seen disk.old) (D.words.moments disk.old) → OnOk result (AreSynced (D.words.seen disk.new) (D.words.moments disk.new)) }
        ensures left { TellsImages D.words.tells → (m : Map) → Keeps self.old m (D.words.seen disk.old) → AreSynced (D.words.seen disk.old) (D.words.moments disk.old)
            → OnOk result (LeavesOnly (λ image. Stands limits image (after_batch m batch.now)) (D.words.moments disk.new).now) }
        ensures others { TellsImages D.words.tells → OthersStay self.old.journal.file (D.words.moments disk.old).now (D.words.moments disk.new).now }
        ensures meanwhile { TellsImages D.words.tells → (m : Map) → Keeps self.old m (D.words.seen disk.old) → AreSynced (D.words.seen disk.old) (D.words.moments disk.old)
            → Meanwhile (StandEither (D.words.moments disk.old) self.old.journal.file m (after_batch m batch.now)) (D.words.moments disk.old) (D.words.moments disk.new) }
        ensures later { D.words.faults disk.old ≤ D.words.faults disk.new }
        ensures disk { IsErrOf result ValueFault.Disk → Rose (D.words.faults disk.old) (D.words.faults disk.new) }
    {
        if let Err(fault) = self.admits(batch) {
            return Err(fault);
        }
        let Ok(mut room) = room_of(alloc, batch) else {
            return Err(ValueFault::NoMemory);
        };
        let changes = batch.changes();
        let end = self.journal.end();
        let start = end + 6 + uvarint_len(changes.len() as u64);
        let Ok(()) = add_room(alloc, &mut self.index, changes, start, end) else {
            return Err(ValueFault::NoMemory);
        };
        let Ok(_) = self.journal.append(disk, BATCH, &mut room) else {
            self.index.cut(end);
            return Err(ValueFault::Disk);
        };
        settle(&mut self.index, changes, start);
        Ok(())
    }
}
