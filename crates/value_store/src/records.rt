// Reading the records of a journal into an index.
ghost use Rattle.std.specs.Prelude.{◌≡◌, ℕ, ◌<◌, ◌≤◌, false, List, IfOk, IfErr, IfSome, OnOk, IsErrOf};
ghost use Rattle.std.specs.FinMap as map_of;
ghost use Rattle.base_model.specs.Faults.{Rose};
ghost use Rattle.disk_model.specs.Words.{TellsContents};
ghost use Rattle.store_model.specs.Header.{first_gate};
ghost use Rattle.store_model.specs.Record.{Record};
ghost use Rattle.mdb_journal.specs.Journal.{Knows};
ghost use Rattle.mdb_journal.specs.Opening.{Untouched};
ghost use Rattle.value_store.specs.Index.{AreInFile};
ghost use Rattle.value_store.specs.BatchReading.{store_fault, Standing, Found, GoesOn, RecordsFail};

use crate::ValueFault;
use crate::index::Index;
use crate::loader::{BatchTrouble, Loader};
use disk_world::Disk;
use mdb_journal::{Journal, JournalFault};
use std::alloc::Global;

/// The kind of a record that has a batch.
pub(crate) const BATCH: u8 = 1;

/// A fault of the journal, as the store tells it.
pub(crate) fn store_fault(fault: JournalFault) -> ValueFault
    ensures { result ≡ store_fault fault }
{
    match fault {
        JournalFault::Disk => ValueFault::Disk,
        JournalFault::NotAStore(file) => ValueFault::NotAStore(file),
        JournalFault::BranchDiffers { kept, asked } => ValueFault::BranchDiffers { kept, asked },
        JournalFault::Damaged { file, at } => ValueFault::Damaged { file, at },
        JournalFault::TooLarge(count) => ValueFault::TooLarge(count),
        JournalFault::Failed => ValueFault::Failed,
        JournalFault::NoMemory => ValueFault::NoMemory,
    }
}

// Lays the record behind that gate on the index, and tells where the next gate is; None where the
// gate is not open.
fn read_record<D: Disk>(
    disk: &mut D,
    journal: &mut Journal,
    loader: &mut Loader,
    at: u64,
) -> Result<Option<u64>, ValueFault>
    requires behind { first_gate ≤ at }
    requires works { journal.old.failed ≡ false }
    ensures read { TellsContents D.words.tells → (rs : List Record) → Knows journal.old rs (D.words.seen disk.old) → Standing (D.words.seen disk.old journal.old.file) rs at loader.old.index
        → IfOk result (GoesOn (D.words.seen disk.old journal.old.file) rs loader.new.index) }
    ensures refused { TellsContents D.words.tells → (rs : List Record) → Knows journal.old rs (D.words.seen disk.old) → Standing (D.words.seen disk.old journal.old.file) rs at loader.old.index
        → IfErr result (RecordsFail journal.old.file rs) }
    ensures on { IfOk result (λ next. IfSome next (λ next. (at < next) × (next ≤ journal.old.end))) }
    ensures in_file { AreInFile journal.old.end loader.old.index → OnOk result (AreInFile journal.old.end loader.new.index) }
    ensures journal { OnOk result (journal.new ≡ journal.old) }
    ensures untouched { Untouched (D.words.seen disk.old) (D.words.seen disk.new) (D.words.moments disk.old) (D.words.moments disk.new) }
    ensures later { D.words.faults disk.old ≤ D.words.faults disk.new }
    ensures disk { IsErrOf result ValueFault.Disk → Rose (D.words.faults disk.old) (D.words.faults disk.new) }
{
    let record = match journal.record(disk, at) {
        Ok(Some(record)) => record,
        Ok(None) => return Ok(None),
        Err(fault) => return Err(store_fault(fault)),
    };
    let damaged = ValueFault::Damaged {
        file: journal.active(),
        at,
    };
    // No record of a disk that tells what it holds goes on behind the gate that ends them.
    if record.next > journal.end() {
        return Err(damaged);
    }
    if record.kind != BATCH {
        return Ok(Some(record.next));
    }
    match loader.read_batch(disk, journal, record.place, u64::from(record.length)) {
        Ok(()) => Ok(Some(record.next)),
        Err(BatchTrouble::Outside) => Err(damaged),
        Err(BatchTrouble::Disk) => Err(ValueFault::Disk),
        Err(BatchTrouble::NoMemory) => Err(ValueFault::NoMemory),
    }
}

/// The index that all records make.
pub(crate) fn read_records<D: Disk>(
    alloc: Global,
    disk: &mut D,
    journal: &mut Journal,
) -> Result<Index, ValueFault>
    requires works { journal.old.failed ≡ false }
    ensures found { TellsContents D.words.tells → (rs : List Record) → Knows journal.old rs (D.words.seen disk.old) → IfOk result (Found (D.words.seen disk.old journal.old.file) rs) }
    ensures refused { TellsContents D.words.tells → (rs : List Record) → Knows journal.old rs (D.words.seen disk.old) → IfErr result (RecordsFail journal.old.file rs) }
    ensures in_file { IfOk result (AreInFile journal.old.end) }
    ensures journal { OnOk result (journal.new ≡ journal.old) }
    ensures untouched { Untouched (D.words.seen disk.old) (D.words.seen disk.new) (D.words.moments disk.old) (D.words.moments disk.new) }
    ensures later { D.words.faults disk.old ≤ D.words.faults disk.new }
    ensures disk { IsErrOf result ValueFault.Disk → Rose (D.words.faults disk.old) (D.words.faults disk.new) }
{
    let Ok(mut loader) = Loader::new(alloc) else {
        return Err(ValueFault::NoMemory);
    };
    let mut at = journal.first();
    'records: loop {
        match read_record(disk, journal, &mut loader, at) {
            Ok(Some(next)) => at = next,
            Ok(None) => return Ok(loader.into_index()),
            Err(fault) => return Err(fault),
        }
    }
}
