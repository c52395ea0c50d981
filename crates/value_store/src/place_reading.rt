// Reading the value at a place.
ghost use Rattle.std.specs.Prelude.{◌≡◌, ◌⊎◌, ◌+◌, ◌≤◌, true, false, IfOk, IfErr, IsErrOf};
ghost use Rattle.base_model.specs.Faults.{Rose};
ghost use Rattle.disk_model.specs.Words.{TellsContents};
ghost use Rattle.mdb_journal.specs.Opening.{Untouched};
ghost use Rattle.value_store.specs.Values.{value_in};

use crate::{Place, ValueFault};
use disk_world::Disk;
use mdb_journal::Journal;
use std::alloc::Global;

/// Reads the value at a place.
pub(crate) fn read_value<D: Disk>(
    alloc: Global,
    journal: &mut Journal,
    disk: &mut D,
    place: Place,
) -> Result<Vec<u8>, ValueFault>
    requires works { journal.old.failed ≡ false }
    requires within { place.start + place.count ≤ journal.old.end }
    ensures value { TellsContents D.words.tells → IfOk result (λ value. value.items ≡ value_in (D.words.seen disk.old journal.old.file) place) }
    ensures fault { IfErr result (λ fault. (fault ≡ ValueFault.Disk) ⊎ (fault ≡ ValueFault.NoMemory)) }
    ensures fails { IsErrOf result ValueFault.Disk → journal.new ≡ record journal.old { failed = true } }
    ensures stays { (IsErrOf result ValueFault.Disk → ⊥) → journal.new ≡ journal.old }
    ensures untouched { Untouched (D.words.seen disk.old) (D.words.seen disk.new) (D.words.moments disk.old) (D.words.moments disk.new) }
    ensures later { D.words.faults disk.old ≤ D.words.faults disk.new }
    ensures disk { IsErrOf result ValueFault.Disk → Rose (D.words.faults disk.old) (D.words.faults disk.new) }
{
    let Ok(mut value) = vec![in alloc; 0; place.count as usize] else {
        return Err(ValueFault::NoMemory);
    };
    let Ok(()) = journal.read(disk, place.start, &mut value) else {
        return Err(ValueFault::Disk);
    };
    Ok(value)
}
