// Reading headers.
ghost use Rattle.std.specs.Prelude.{◌≡◌, ◌⊎◌, ℕ, ◌+◌, ◌<◌, ◌≤◌, ◌&&◌, List, length, take, drop, Ok, Err, IfOk, IfSome, IfNone, IsErrOf};
ghost use Rattle.base_model.specs.Faults.{HasCause, Rose};
ghost use Rattle.disk_model.specs.Words.{TellsContents};
ghost use Rattle.store_model.specs.Header.{StoreFault, header_behind_gate, header_of, is_width, first_gate};
ghost use Rattle.store_model.specs.Journal.{later, active};
ghost use Rattle.std.specs.Int.{w64, from_be_bytes};
ghost use Rattle.store_model.specs.Fields.{these_at};
ghost use Rattle.mdb_journal.specs.Opening.{as_answer, Unless, Untouched};
ghost use Rattle.mdb_journal.specs.declared.fault.JournalFault.TheVariants.{Disk as disk_failed};

use crate::JournalFault;
use disk_world::Disk;
use std::marker::Model;

// The name of a store and the version.
pub(crate) const NAME_AND_VERSION: [u8; 8] = [0x4d, 0x44, 0x42, 0x56, 0x41, 0x4c, 0x53, 0x01];

// The byte of an open gate, and of one that is closed.
pub(crate) const OPEN: u8 = 1;

pub(crate) const CLOSED: u8 = 0;

// Where the gate of the first record stands.
pub(crate) const FIRST_GATE: u64 = 24;

// What a header says.
#[derive(Debug, Drop)]
pub(crate) struct Header {
    pub(crate) width: u8,
    pub(crate) generation: u64,
}

impl Model for Header {
    ghost use Rattle.store_model.specs.Header.{Header as header};

    ghost Value = { header };

    ghost view = { λ h. record { width = h.width; generation = h.generation } };
}

// The place of the first byte that is not as it should be.
fn first_wrong(bytes: &[u8], at: usize, wanted: &[u8]) -> Option<usize>
    requires { at + length wanted.now ≤ length bytes.now }
    ensures none { IfNone result ((wrong : ℕ → StoreFault) → these_at wrong wanted.now bytes.now at ≡ Ok (at + length wanted.now)) }
    ensures some { IfSome result (λ p. (wrong : ℕ → StoreFault) → these_at wrong wanted.now bytes.now at ≡ Err (wrong p)) }
{
    for (i, byte) in wanted.iter().enumerate() {
        if bytes[at + i] != *byte {
            return Some(at + i);
        }
    }
    None
}

fn is_token_width(bits: u8) -> bool
    ensures { result ≡ is_width bits }
{
    matches!(bits, 1 | 2 | 4 | 8)
}

// The generation in a header.
fn generation_in(bytes: &[u8]) -> u64
    requires { length bytes.now ≡ 24 }
    ensures { result ≡ from_be_bytes w64 (take 8 (drop 16 bytes.now)) }
{
    let mut word = [0u8; 8];
    word.copy_from_slice(&bytes[16..]);
    u64::from_be_bytes(word)
}

// The header in the bytes in front of the first record's gate.
fn header_in(file: u8, bytes: &[u8]) -> Result<Header, JournalFault>
    requires { length bytes.now ≡ first_gate }
    ensures { result ≡ as_answer (header_behind_gate file bytes.now) }
{
    if let Some(_) = first_wrong(bytes, 1, &NAME_AND_VERSION) {
        return Err(JournalFault::NotAStore(file));
    }
    let width = bytes[9];
    if !is_token_width(width) {
        return Err(JournalFault::Damaged { file, at: 9 });
    }
    if let Some(at) = first_wrong(bytes, 10, &[0; 6]) {
        return Err(JournalFault::Damaged {
            file,
            at: at as u64,
        });
    }
    let generation = generation_in(bytes);
    if generation == 0 {
        return Err(JournalFault::Damaged { file, at: 16 });
    }
    Ok(Header { width, generation })
}

// The header of a file; None where it is closed.
fn read_header<D: Disk>(disk: &mut D, file: u8) -> Result<Option<Header>, JournalFault>
    requires { file ≤ 1 }
    ensures answer { TellsContents D.words.tells → Unless (as_answer (header_of file (D.words.seen disk.old file))) result }
    ensures untouched { Untouched (D.words.seen disk.old) (D.words.seen disk.new) (D.words.moments disk.old) (D.words.moments disk.new) }
    ensures later { D.words.faults disk.old ≤ D.words.faults disk.new }
    ensures disk { IsErrOf result JournalFault.Disk → Rose (D.words.faults disk.old) (D.words.faults disk.new) }
{
    let Ok(len) = disk.len(file) else {
        return Err(JournalFault::Disk);
    };
    if len <= FIRST_GATE {
        return Ok(None);
    }
    let mut bytes = [0u8; 24];
    let Ok(()) = disk.read(file, 0, &mut bytes) else {
        return Err(JournalFault::Disk);
    };
    if bytes[0] != OPEN {
        return Ok(None);
    }
    match header_in(file, &bytes) {
        Ok(header) => Ok(Some(header)),
        Err(fault) => Err(fault),
    }
}

// Of the file with the greater generation, the number and the header; None where both are closed.
fn later(first: Option<Header>, second: Option<Header>) -> Option<(u8, Header)>
    ensures { result ≡ later first second }
{
    match (first, second) {
        (None, None) => None,
        (Some(first), None) => Some((0, first)),
        (None, Some(second)) => Some((1, second)),
        (Some(first), Some(second)) => Some(if first.generation < second.generation {
            (1, second)
        } else {
            (0, first)
        }),
    }
}

// The active file and its header; None where no header is open.
pub(crate) fn pick<D: Disk>(disk: &mut D) -> Result<Option<(u8, Header)>, JournalFault>
    ensures answer { TellsContents D.words.tells → Unless (as_answer (active (D.words.seen disk.old))) result }
    ensures untouched { Untouched (D.words.seen disk.old) (D.words.seen disk.new) (D.words.moments disk.old) (D.words.moments disk.new) }
    ensures file { IfOk result (λ r. IfSome r (λ a. a.0 ≤ 1)) }
    ensures later { D.words.faults disk.old ≤ D.words.faults disk.new }
    ensures disk { IsErrOf result JournalFault.Disk → Rose (D.words.faults disk.old) (D.words.faults disk.new) }
{
    let first = read_header(disk, 0)?;
    let second = read_header(disk, 1)?;
    Ok(later(first, second))
}
