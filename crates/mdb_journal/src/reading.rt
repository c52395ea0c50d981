// What is read of an open journal.
ghost use Rattle.std.specs.Prelude.{◌≡◌, ◌+◌, ◌≤◌, true, false, length, take, drop, OnOk, OnErr, IfOk, IfSome, IsErrOf};
ghost use Rattle.base_model.specs.Faults.{Rose};
ghost use Rattle.disk_model.specs.Words.{TellsContents};
ghost use Rattle.mdb_journal.specs.Opening.{Untouched};
ghost use Rattle.mdb_journal.specs.GateWalk.{AtGate};
ghost use Rattle.mdb_journal.specs.declared.fault.JournalFault.TheVariants.{Failed as has_failed, Disk as disk_failed};

use crate::record::read_record;
use crate::{Journal, JournalFault, Record};
use disk_world::Disk;

impl Journal {
    /// The record behind the gate at that place; None where the gate is not open. It takes no memory.
    pub fn record<D: Disk>(&mut self, disk: &mut D, at: u64) -> Result<Option<Record>, JournalFault>
        ensures found { TellsContents D.words.tells → self.old.failed ≡ false → AtGate (D.words.seen disk.old self.old.file) self.old.file at result }
        ensures places { IfOk result (λ r. IfSome r (λ r. (r.place ≡ at + 6) × (r.next ≡ r.place + r.length))) }
        ensures failed { self.old.failed ≡ true → IsErrOf result JournalFault.Failed }
        ensures works { self.old.failed ≡ false → IsErrOf result JournalFault.Failed → ⊥ }
        ensures fails { IsErrOf result JournalFault.Disk → self.new ≡ record self.old { failed = true } }
        ensures stays { (IsErrOf result JournalFault.Disk → ⊥) → self.new ≡ self.old }
        ensures untouched { Untouched (D.words.seen disk.old) (D.words.seen disk.new) (D.words.moments disk.old) (D.words.moments disk.new) }
        ensures later { D.words.faults disk.old ≤ D.words.faults disk.new }
        ensures disk { IsErrOf result JournalFault.Disk → Rose (D.words.faults disk.old) (D.words.faults disk.new) }
    {
        if self.failed {
            return Err(JournalFault::Failed);
        }
        let Ok(len) = disk.len(self.file) else {
            self.failed = true;
            return Err(JournalFault::Disk);
        };
        match read_record(disk, self.file, at, len) {
            Ok(found) => Ok(found),
            Err(fault) => {
                self.failed = fault == JournalFault::Disk;
                Err(fault)
            }
        }
    }

    /// Fills the piece with the bytes of the active file at that place. It takes no memory.
    pub fn read<D: Disk>(
        &mut self,
        disk: &mut D,
        at: u64,
        into: &mut [u8],
    ) -> Result<(), JournalFault>
        requires { at + length into.old ≤ self.old.end }
        ensures bytes { TellsContents D.words.tells → OnOk result (into.new ≡ take (length into.old) (drop at (D.words.seen disk.old self.old.file))) }
        ensures failed { self.old.failed ≡ true → IsErrOf result JournalFault.Failed }
        ensures works { self.old.failed ≡ false → OnErr result (IsErrOf result JournalFault.Disk) }
        ensures fails { IsErrOf result JournalFault.Disk → self.new ≡ record self.old { failed = true } }
        ensures stays { (IsErrOf result JournalFault.Disk → ⊥) → self.new ≡ self.old }
        ensures untouched { Untouched (D.words.seen disk.old) (D.words.seen disk.new) (D.words.moments disk.old) (D.words.moments disk.new) }
        ensures later { D.words.faults disk.old ≤ D.words.faults disk.new }
        ensures disk { IsErrOf result JournalFault.Disk → Rose (D.words.faults disk.old) (D.words.faults disk.new) }
    {
        if self.failed {
            return Err(JournalFault::Failed);
        }
        let Ok(()) = disk.read(self.file, at, into) else {
            self.failed = true;
            return Err(JournalFault::Disk);
        };
        Ok(())
    }
}
