// Writing a batch, and telling what it changes.
ghost use Rattle.std.specs.Prelude.{◌≡◌, ◌<◌, ◌≤◌, false, MatchOption, OnOk, IfOk, IfErr, IsErrOf};
ghost use Rattle.base_model.specs.Faults.{Rose};
ghost use Rattle.disk_model.specs.Moments.{LeavesOnly, Meanwhile};
ghost use Rattle.disk_model.specs.Words.{TellsContents, TellsImages};
ghost use Rattle.trie_model.specs.Maps.{Map, limits};
ghost use Rattle.batch_model.specs.Batch.{after_batch};
ghost use Rattle.history_model.specs.Changes.{deltas as deltas_of, weight};
ghost use Rattle.store_model.specs.Journal.{Stands};
ghost use Rattle.mdb_journal.specs.DiskMoves.{AreSynced, OthersStay};
ghost use Rattle.mdb_journal.specs.Opening.{Untouched};
ghost use Rattle.value_store.specs.Values.{Keeps as ValuesKeep, broken as broken_values};
ghost use Rattle.value_store.specs.Writes.{Writes, WriteFails, StandEither};

use crate::DbFault;
use crate::recording::read_deltas;
use change_history::Delta;
use disk_world::Disk;
use mdb_base::Batch;
use std::alloc::Global;
use value_store::{ValueFault, ValueStore};

/// Lays a batch on the map of some values, and tells what it changes there, or None where that weighs more than a limit. What
/// `admits` refuses is refused before the disk is called; after that only the disk or memory may fail. The values before are
/// read before any byte is written.
pub(crate) fn write_told<D: Disk>(
    alloc: Global,
    disk: &mut D,
    values: &mut ValueStore,
    batch: &Batch,
    limit: u64,
) -> Result<Option<Vec<Delta>>, ValueFault>
    ensures written { OnOk result (Writes values.old batch.now) }
    ensures fault { IfErr result (WriteFails values.old batch.now) }
    ensures fails { IsErrOf result ValueFault.Disk → values.new ≡ broken_values values.old }
    ensures refused { IfErr result (λ fault. (fault ≡ ValueFault.Disk → ⊥) → (values.new ≡ values.old) × Untouched (D.words.seen disk.old) (D.words.seen disk.new) (D.words.moments disk.old) (D.words.moments disk.new)) }
    ensures uncalled { IfErr result (λ fault. (fault ≡ ValueFault.Disk → ⊥) → (fault ≡ ValueFault.NoMemory → ⊥) → disk.new ≡ disk.old) }
    ensures works { OnOk result (values.new.journal.failed ≡ false) }
    ensures contents { TellsContents D.words.tells → (m : Map) → ValuesKeep values.old m (D.words.seen disk.old) → OnOk result (ValuesKeep values.new (after_batch m batch.now) (D.words.seen disk.new)) }
    ensures deltas { TellsContents D.words.tells → (m : Map) → ValuesKeep values.old m (D.words.seen disk.old) → IfOk result (λ made. MatchOption made
        (limit < weight m (after_batch m batch.now))
        (λ ds. ds.items ≡ deltas_of m (after_batch m batch.now))) }
    ensures read_others { TellsContents D.words.tells → OthersStay values.old.journal.file (D.words.seen disk.old) (D.words.seen disk.new) }
    ensures synced { TellsImages D.words.tells → AreSynced (D.words.seen disk.old) (D.words.moments disk.old) → OnOk result (AreSynced (D.words.seen disk.new) (D.words.moments disk.new)) }
    ensures left { TellsImages D.words.tells → (m : Map) → ValuesKeep values.old m (D.words.seen disk.old) → AreSynced (D.words.seen disk.old) (D.words.moments disk.old)
        → OnOk result (LeavesOnly (λ image. Stands limits image (after_batch m batch.now)) (D.words.moments disk.new).now) }
    ensures others { TellsImages D.words.tells → OthersStay values.old.journal.file (D.words.moments disk.old).now (D.words.moments disk.new).now }
    ensures meanwhile { TellsImages D.words.tells → (m : Map) → ValuesKeep values.old m (D.words.seen disk.old) → AreSynced (D.words.seen disk.old) (D.words.moments disk.old)
        → Meanwhile (StandEither (D.words.moments disk.old) values.old.journal.file m (after_batch m batch.now)) (D.words.moments disk.old) (D.words.moments disk.new) }
    ensures later { D.words.faults disk.old ≤ D.words.faults disk.new }
    ensures disk { IsErrOf result ValueFault.Disk → Rose (D.words.faults disk.old) (D.words.faults disk.new) }
{
    if let Err(fault) = values.admits(batch) {
        return Err(fault);
    }
    let deltas = match read_deltas(alloc, disk, values, batch, limit) {
        Ok(deltas) => deltas,
        Err(DbFault::Disk) => return Err(ValueFault::Disk),
        Err(_) => return Err(ValueFault::NoMemory),
    };
    match values.write(alloc, disk, batch) {
        Ok(()) => Ok(deltas),
        Err(ValueFault::Disk) => Err(ValueFault::Disk),
        Err(_) => Err(ValueFault::NoMemory),
    }
}
