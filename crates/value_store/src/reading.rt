// Reading values.
ghost use Rattle.std.specs.Prelude.{◌≡◌, ◌⊎◌, ℕ, List, ◌≤◌, true, false, is_some, option_map, OnOk, IfOk, IfErr, IsErrOf};
ghost use Rattle.std.specs.FinMap as map_of;
ghost use Rattle.std.specs.List.{AllByRecursion};
ghost use Rattle.base_model.specs.Faults.{Rose};
ghost use Rattle.disk_model.specs.Words.{TellsContents};
ghost use Rattle.trie_model.specs.Maps.{Map};
ghost use Rattle.mdb_journal.specs.Opening.{Untouched};
ghost use Rattle.value_store.specs.Index.{IsShort};
ghost use Rattle.value_store.specs.PairSinks.{TakesAll};
ghost use Rattle.value_store.specs.Values.{Keeps, HasKeys, broken};

use crate::place_reading::read_value;
use crate::{PairSink, ValueFault, ValueStore};
use disk_world::Disk;
use std::alloc::Global;

impl ValueStore {
    /// Reads the value of a key; None where the key is not there.
    pub fn get<D: Disk>(
        &mut self,
        alloc: Global,
        disk: &mut D,
        key: &[u8],
    ) -> Result<Option<Vec<u8>>, ValueFault>
        ensures value { TellsContents D.words.tells → (m : Map) → Keeps self.old m (D.words.seen disk.old)
            → IfOk result (λ value. option_map (λ v. v.items) value ≡ map_of.get m key.now) }
        ensures there { IfOk result (λ value. (m : Map) → HasKeys self.old m → is_some value ≡ map_of.contains_key m key.now) }
        ensures failed { self.old.journal.failed ≡ true → IsErrOf result ValueFault.Failed }
        ensures works { self.old.journal.failed ≡ false → IfErr result (λ fault. (fault ≡ ValueFault.Disk) ⊎ (fault ≡ ValueFault.NoMemory)) }
        ensures fails { IsErrOf result ValueFault.Disk → self.new ≡ broken self.old }
        ensures stays { (IsErrOf result ValueFault.Disk → ⊥) → self.new ≡ self.old }
        ensures untouched { Untouched (D.words.seen disk.old) (D.words.seen disk.new) (D.words.moments disk.old) (D.words.moments disk.new) }
        ensures later { D.words.faults disk.old ≤ D.words.faults disk.new }
        ensures disk { IsErrOf result ValueFault.Disk → Rose (D.words.faults disk.old) (D.words.faults disk.new) }
    {
        if self.journal.failed() {
            return Err(ValueFault::Failed);
        }
        let Some(place) = self.index.get(key) else {
            return Ok(None);
        };
        let value = match read_value(alloc, &mut self.journal, disk, place) {
            Ok(value) => value,
            Err(fault) => return Err(fault),
        };
        Ok(Some(value))
    }

    /// Reads each value, in the order of the keys, and hands it on with its key.
    pub fn each<D: Disk, P: PairSink>(
        &mut self,
        alloc: Global,
        disk: &mut D,
        pairs: &mut P,
    ) -> Result<(), ValueFault>
        requires works { self.old.journal.failed ≡ false }
        ensures taken { TellsContents D.words.tells → (m : Map) → Keeps self.old m (D.words.seen disk.old) → OnOk result (TakesAll P.takes pairs.old (map_of.entries m) pairs.new) }
        ensures some { OnOk result ((es : List (List ℕ × List ℕ)) × AllByRecursion (λ e. IsShort e.0) es × TakesAll P.takes pairs.old es pairs.new) }
        ensures fault { IfErr result (λ fault. (fault ≡ ValueFault.Disk) ⊎ (fault ≡ ValueFault.NoMemory)) }
        ensures fails { IsErrOf result ValueFault.Disk → self.new ≡ broken self.old }
        ensures stays { (IsErrOf result ValueFault.Disk → ⊥) → self.new ≡ self.old }
        ensures untouched { Untouched (D.words.seen disk.old) (D.words.seen disk.new) (D.words.moments disk.old) (D.words.moments disk.new) }
        ensures later { D.words.faults disk.old ≤ D.words.faults disk.new }
        ensures disk { IsErrOf result ValueFault.Disk → Rose (D.words.faults disk.old) (D.words.faults disk.new) }
    {
        self.index.each(alloc, &mut self.journal, disk, pairs)
    }
}
