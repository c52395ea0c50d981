// Records, from gate to gate.
ghost use Rattle.std.specs.Prelude.{◌≡◌, ◌⊎◌, ℕ, ◌+◌, ◌<◌, ◌≤◌, ◌&&◌, List, length, take, drop, Ok, Err, IfOk, IfSome, IfNone, IsErrOf};
ghost use Rattle.base_model.specs.Faults.{Rose};
ghost use Rattle.disk_model.specs.Files.{file_limit};
ghost use Rattle.disk_model.specs.Words.{TellsContents};
ghost use Rattle.store_model.specs.Header.{first_gate};
ghost use Rattle.store_model.specs.Record.{is_known};
ghost use Rattle.std.specs.Int.{w32, from_be_bytes};
ghost use Rattle.mdb_journal.specs.Opening.{Untouched};
ghost use Rattle.mdb_journal.specs.GateWalk.{AtGate, Walked};
ghost use Rattle.mdb_journal.specs.declared.fault.JournalFault.TheVariants.{Disk as disk_failed, Failed as has_failed};

use crate::JournalFault;
use crate::header::{FIRST_GATE, OPEN};
use disk_world::Disk;

/// A record: its kind, the place and the length of its payload, and the place of the next gate.
#[derive(Clone, Copy, Debug, PartialEq, Eq)]
pub struct Record {
    pub kind: u8,
    pub place: u64,
    pub length: u32,
    pub next: u64,
}

// A batch, or a clean record, which has no payload.
fn is_record(kind: u8, count: u32) -> bool
    ensures { result ≡ is_known kind count }
{
    kind == 1 || (kind == 2 && count == 0)
}

// The length behind the kind.
fn count_in(head: &[u8; 5]) -> u32
    ensures { result ≡ from_be_bytes w32 (drop 1 head.now) }
{
    let mut count = [0u8; 4];
    count.copy_from_slice(&head[1..]);
    u32::from_be_bytes(count)
}

// The record at a gate of a file of that length; None where the gate is not open.
pub(crate) fn read_record<D: Disk>(
    disk: &mut D,
    file: u8,
    at: u64,
    len: u64,
) -> Result<Option<Record>, JournalFault>
    requires file { file ≤ 1 }
    requires len { len ≤ file_limit }
    ensures found { TellsContents D.words.tells → len ≡ length (D.words.seen disk.old file) → AtGate (D.words.seen disk.old file) file at result }
    ensures works { IsErrOf result JournalFault.Failed → ⊥ }
    ensures on { IfOk result (λ r. IfSome r (λ r. (at < r.next) × (r.next < len))) }
    ensures places { IfOk result (λ r. IfSome r (λ r. (r.place ≡ at + 6) × (r.next ≡ r.place + r.length))) }
    ensures untouched { Untouched (D.words.seen disk.old) (D.words.seen disk.new) (D.words.moments disk.old) (D.words.moments disk.new) }
    ensures later { D.words.faults disk.old ≤ D.words.faults disk.new }
    ensures disk { IsErrOf result JournalFault.Disk → Rose (D.words.faults disk.old) (D.words.faults disk.new) }
{
    if len <= at {
        return Ok(None);
    }
    let mut gate = [0u8; 1];
    let Ok(()) = disk.read(file, at, &mut gate) else {
        return Err(JournalFault::Disk);
    };
    if gate[0] != OPEN {
        return Ok(None);
    }
    let damaged = JournalFault::Damaged { file, at };
    if len - at < 6 {
        return Err(damaged);
    }
    let mut head = [0u8; 5];
    let Ok(()) = disk.read(file, at + 1, &mut head) else {
        return Err(JournalFault::Disk);
    };
    let count = count_in(&head);
    let next = at + 6 + u64::from(count);
    if !is_record(head[0], count) {
        return Err(damaged);
    }
    if next >= len {
        return Err(damaged);
    }
    Ok(Some(Record {
        kind: head[0],
        place: at + 6,
        length: count,
        next,
    }))
}

// The place of the first gate that is not open, in a file of that length.
pub(crate) fn walk<D: Disk>(disk: &mut D, file: u8, len: u64) -> Result<u64, JournalFault>
    requires file { file ≤ 1 }
    requires len { len ≤ file_limit }
    ensures end { TellsContents D.words.tells → len ≡ length (D.words.seen disk.old file) → first_gate < len → Walked (D.words.seen disk.old file) file result }
    ensures start { IfOk result (λ end. first_gate ≤ end) }
    ensures limit { IfOk result (λ end. end ≤ file_limit) }
    ensures untouched { Untouched (D.words.seen disk.old) (D.words.seen disk.new) (D.words.moments disk.old) (D.words.moments disk.new) }
    ensures later { D.words.faults disk.old ≤ D.words.faults disk.new }
    ensures disk { IsErrOf result JournalFault.Disk → Rose (D.words.faults disk.old) (D.words.faults disk.new) }
{
    let mut at = FIRST_GATE;
    'gates: loop {
        match read_record(disk, file, at, len) {
            Ok(Some(record)) => at = record.next,
            Ok(None) => return Ok(at),
            Err(fault) => return Err(fault),
        }
    }
}
