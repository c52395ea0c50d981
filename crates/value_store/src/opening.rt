// Opening a store.
ghost use Rattle.std.specs.Prelude.{◌≡◌, ℕ, ◌≤◌, false, OnOk, IfOk, IfErr, IsErrOf};
ghost use Rattle.base_model.specs.Faults.{Rose};
ghost use Rattle.disk_model.specs.Moments.{LeavesOnly};
ghost use Rattle.disk_model.specs.Words.{TellsContents, TellsImages};
ghost use Rattle.trie_model.specs.Maps.{Map, limits};
ghost use Rattle.bit_keys.specs.Branch.{width_of};
ghost use Rattle.store_model.specs.Journal.{Stands};
ghost use Rattle.mdb_journal.specs.DiskMoves.{AreSynced};
ghost use Rattle.store_model.specs.Openings.{Opens};
ghost use Rattle.value_store.specs.StoreOpenings.{Opened, OpenFails};

use crate::records::{read_records, store_fault};
use crate::{ValueFault, ValueStore};
use bit_keys::Branch;
use disk_world::Disk;
use mdb_journal::Journal;
use std::alloc::Global;

impl ValueStore {
    /// Reads the journal of a disk, and makes it where there is none.
    ///
    /// A record outside the format is told before a batch outside it. Batches are read in pieces, so
    /// that no more memory is taken than the index needs.
    pub fn open<D: Disk>(
        alloc: Global,
        disk: &mut D,
        branch: Branch,
    ) -> Result<ValueStore, ValueFault>
        ensures opened { TellsContents D.words.tells → IfOk result (Opened (width_of branch) (D.words.seen disk.old) (D.words.seen disk.new)) }
        ensures works { IfOk result (λ s. s.journal.failed ≡ false) }
        ensures refused { TellsContents D.words.tells → IfErr result (OpenFails (width_of branch) (D.words.seen disk.old)) }
        ensures kept { TellsContents D.words.tells → (m : Map) → Stands limits (D.words.seen disk.old) m → IsErrOf result ValueFault.NoMemory → Stands limits (D.words.seen disk.new) m }
        ensures read_others { TellsContents D.words.tells → (file : ℕ) → 2 ≤ file → D.words.seen disk.new file ≡ D.words.seen disk.old file }
        ensures synced { TellsImages D.words.tells → OnOk result (AreSynced (D.words.seen disk.new) (D.words.moments disk.new)) }
        ensures left { TellsImages D.words.tells → (m : Map) → Stands limits (D.words.seen disk.old) m → OnOk result (LeavesOnly (λ image. Stands limits image m) (D.words.moments disk.new).now) }
        ensures others { TellsImages D.words.tells → (file : ℕ) → 2 ≤ file → (D.words.moments disk.new).now file ≡ (D.words.moments disk.old).now file }
        ensures opens { TellsImages D.words.tells → (m : Map) → Stands limits (D.words.seen disk.old) m → Opens limits m (D.words.moments disk.old) (D.words.moments disk.new) }
        ensures later { D.words.faults disk.old ≤ D.words.faults disk.new }
        ensures disk { IsErrOf result ValueFault.Disk → Rose (D.words.faults disk.old) (D.words.faults disk.new) }
    {
        let mut journal = match Journal::open(disk, branch) {
            Ok(journal) => journal,
            Err(fault) => return Err(store_fault(fault)),
        };
        match read_records(alloc, disk, &mut journal) {
            Ok(index) => Ok(ValueStore { journal, index }),
            Err(fault) => Err(fault),
        }
    }
}
