// One record more, behind the gate that is closed.
ghost use Rattle.std.specs.Prelude.{◌≡◌, ◌⊎◌, ℕ, ◌+◌, ◌-◌, ◌^◌, ◌<◌, ◌≤◌, ◌++◌, ◌∷◌, [], List, length, true, false, OnOk, OnErr, IfOk, IsErrOf, Err};
ghost use Rattle.base_model.specs.Faults.{HasCause, Rose};
ghost use Rattle.disk_model.specs.Files.{Alone, written, file_limit};
ghost use Rattle.disk_model.specs.Moments.{LeavesOnly, Meanwhile};
ghost use Rattle.disk_model.specs.Words.{TellsContents, TellsImages};
ghost use Rattle.store_model.specs.Header.{Header};
ghost use Rattle.store_model.specs.Record.{Record, IsRecord};
ghost use Rattle.store_model.specs.Journal.{Hold, IsJournal, end_of};
ghost use Rattle.store_model.specs.Laws.{gated};
ghost use Rattle.mdb_journal.specs.Journal.{Knows, payload_in, payload_limit, record_in};
ghost use Rattle.mdb_journal.specs.DiskMoves.{IsSynced, AreSynced, OthersStay, HoldEither};
ghost use Rattle.mdb_journal.specs.Appends.{WithOrWithout};
ghost use Rattle.mdb_journal.specs.declared.fault.JournalFault.TheVariants.{Failed as has_failed, Disk as disk_failed, TooLarge as too_large};

use crate::header::{CLOSED, OPEN};
use crate::synced::write_synced;
use crate::{Journal, JournalFault};
use byteorder::{BigEndian, ByteOrder};
use disk_world::{Disk, Failed};

// How many bytes a payload has at most.
const PAYLOAD_LIMIT: usize = 33_554_432;

// Fills in the kind, the length and the next gate.
fn fill(room: &mut [u8], kind: u8)
    requires long { 6 ≤ length room.old }
    requires short { length room.old < 2 ^ 32 }
    ensures { room.new ≡ gated (record_in kind room.old) }
{
    let next = room.len() - 1;
    let count = (next - 5) as u32;
    room[0] = kind;
    BigEndian::write_u32(&mut room[1..], count);
    room[next] = CLOSED;
}

// Writes a record behind its gate, and opens the gate once the record is safe.
fn write_record<D: Disk>(disk: &mut D, file: u8, end: u64, room: &[u8]) -> Result<(), Failed>
    requires file { file ≤ 4 }
    requires end { end ≤ file_limit }
    ensures limit { OnOk result (end + 1 + length room.now ≤ file_limit) }
    ensures contents { TellsContents D.words.tells → Alone file (λ was is. OnOk result (is ≡ written (written was (end + 1) room.now) end (1 ∷ []))) (D.words.seen disk.old) (D.words.seen disk.new) }
    ensures synced { TellsImages D.words.tells → OnOk result (IsSynced file (D.words.seen disk.new) (D.words.moments disk.new)) }
    ensures others { TellsImages D.words.tells → OthersStay file (D.words.moments disk.old).now (D.words.moments disk.new).now }
    ensures meanwhile { TellsImages D.words.tells → (h : Header) (rs : List Record) (r : Record) → room.now ≡ gated r → end ≡ end_of rs → IsRecord r
        → IsJournal h rs (D.words.seen disk.old file) → IsSynced file (D.words.seen disk.old) (D.words.moments disk.old)
        → Meanwhile (WithOrWithout (D.words.moments disk.old) file h rs r) (D.words.moments disk.old) (D.words.moments disk.new) }
    ensures cause { HasCause (D.words.faults disk.old) (D.words.faults disk.new) result }
{
    write_synced(disk, file, end + 1, room)?;
    write_synced(disk, file, end, &[OPEN])
}

impl Journal {
    /// Adds a record with the payload in the room: all but its first five bytes and its last one.
    ///
    /// It fills in these six, and gives the place of the payload in the file. It takes no memory.
    pub fn append<D: Disk>(
        &mut self,
        disk: &mut D,
        kind: u8,
        room: &mut [u8],
    ) -> Result<u64, JournalFault>
        requires { 6 ≤ length room.old }
        ensures room { OnOk result (room.new ≡ gated (record_in kind room.old)) }
        ensures payload { payload_in room.new ≡ payload_in room.old }
        ensures place { IfOk result (λ place. place ≡ self.old.end + 6) }
        ensures end { OnOk result (self.new ≡ record self.old { end = self.old.end + length room.old }) }
        ensures failed { self.old.failed ≡ true → IsErrOf result JournalFault.Failed }
        ensures too_large { self.old.failed ≡ false → payload_limit < length room.old - 6 → result ≡ Err (too_large (length room.old - 6)) }
        ensures works { self.old.failed ≡ false → length room.old - 6 ≤ payload_limit → OnErr result (IsErrOf result JournalFault.Disk) }
        ensures untouched { (self.old.failed ≡ true) ⊎ (payload_limit < length room.old - 6) → (self.new ≡ self.old) × (disk.new ≡ disk.old) × (room.new ≡ room.old) }
        ensures fails { IsErrOf result JournalFault.Disk → self.new ≡ record self.old { failed = true } }
        ensures disk { IsErrOf result JournalFault.Disk → Rose (D.words.faults disk.old) (D.words.faults disk.new) }
        ensures later { D.words.faults disk.old ≤ D.words.faults disk.new }
        ensures contents { TellsContents D.words.tells → (rs : List Record) → IsRecord (record_in kind room.old) → Knows self.old rs (D.words.seen disk.old)
            → OnOk result (Knows self.new (rs ++ record_in kind room.old ∷ []) (D.words.seen disk.new)) }
        ensures read_others { TellsContents D.words.tells → OthersStay self.old.file (D.words.seen disk.old) (D.words.seen disk.new) }
        ensures synced { TellsImages D.words.tells → AreSynced (D.words.seen disk.old) (D.words.moments disk.old) → OnOk result (AreSynced (D.words.seen disk.new) (D.words.moments disk.new)) }
        ensures left { TellsImages D.words.tells → (rs : List Record) → IsRecord (record_in kind room.old) → Knows self.old rs (D.words.seen disk.old) → AreSynced (D.words.seen disk.old) (D.words.moments disk.old)
            → OnOk result (LeavesOnly (λ image. Hold image (rs ++ record_in kind room.old ∷ [])) (D.words.moments disk.new).now) }
        ensures others { TellsImages D.words.tells → OthersStay self.old.file (D.words.moments disk.old).now (D.words.moments disk.new).now }
        ensures meanwhile { TellsImages D.words.tells → (rs : List Record) → IsRecord (record_in kind room.old) → Knows self.old rs (D.words.seen disk.old)
            → AreSynced (D.words.seen disk.old) (D.words.moments disk.old)
            → Meanwhile (HoldEither (D.words.moments disk.old) self.old.file rs (rs ++ record_in kind room.old ∷ [])) (D.words.moments disk.old) (D.words.moments disk.new) }
    {
        if self.failed {
            return Err(JournalFault::Failed);
        }
        let payload = room.len() - 6;
        if payload > PAYLOAD_LIMIT {
            return Err(JournalFault::TooLarge(payload as u64));
        }
        fill(room, kind);
        let place = self.end + 6;
        let Ok(()) = write_record(disk, self.file, self.end, room) else {
            self.failed = true;
            return Err(JournalFault::Disk);
        };
        self.end += room.len() as u64;
        Ok(place)
    }
}
