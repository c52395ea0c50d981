// Opening a journal.
ghost use Rattle.std.specs.Prelude.{◌≡◌, ◌⊎◌, ℕ, ◌+◌, ◌^◌, ◌<◌, ◌≤◌, true, false, List, length, Ok, Err, None, IfOk, OnOk, IfErr, IfSome, IfNone, IsErrOf};
ghost use Rattle.base_model.specs.Faults.{HasCause, Rose};
ghost use Rattle.disk_model.specs.Crash.{IsImageOf};
ghost use Rattle.disk_model.specs.Moments.{LeavesOnly, Meanwhile};
ghost use Rattle.disk_model.specs.Words.{TellsContents, TellsImages};
ghost use Rattle.bit_keys.specs.Branch.{width_of};
ghost use Rattle.store_model.specs.Header.{is_width, first_gate};
ghost use Rattle.store_model.specs.Journal.{Hold, active};
ghost use Rattle.store_model.specs.Record.{Record};
ghost use Rattle.mdb_journal.specs.Journal.{Knows};
ghost use Rattle.mdb_journal.specs.DiskMoves.{AreSynced};
ghost use Rattle.mdb_journal.specs.Opening.{Untouched, IsOpened, Refuses, Opens, FailsOrDiffers};

use crate::first_header::make_header;
use crate::header::{FIRST_GATE, pick};
use crate::record::walk;
use crate::{Journal, JournalFault};
use bit_keys::Branch;
use disk_world::{Disk, Failed};

// The number of children that a token of so many bits tells apart.
fn factor(width: u8) -> u16
    ensures { is_width width ≡ true → result ≡ 2 ^ width }
{
    match width {
        1 => 2,
        2 => 4,
        4 => 16,
        _ => 256,
    }
}

// The journal in the active file; None where no header is open.
fn find<D: Disk>(disk: &mut D, branch: Branch) -> Result<Option<Journal>, JournalFault>
    ensures found { TellsContents D.words.tells → IfOk result (λ r. IfSome r (IsOpened (width_of branch) (D.words.seen disk.old))) }
    ensures none { TellsContents D.words.tells → IfOk result (λ r. IfNone r (active (D.words.seen disk.old) ≡ Ok None)) }
    ensures refused { TellsContents D.words.tells → IfErr result (Refuses (width_of branch) (D.words.seen disk.old)) }
    ensures works { IfOk result (λ r. IfSome r (λ j. j.failed ≡ false)) }
    ensures start { IfOk result (λ r. IfSome r (λ j. first_gate ≤ j.end)) }
    ensures untouched { Untouched (D.words.seen disk.old) (D.words.seen disk.new) (D.words.moments disk.old) (D.words.moments disk.new) }
    ensures later { D.words.faults disk.old ≤ D.words.faults disk.new }
    ensures disk { IsErrOf result JournalFault.Disk → Rose (D.words.faults disk.old) (D.words.faults disk.new) }
{
    let (file, header) = match pick(disk) {
        Ok(Some(active)) => active,
        Ok(None) => return Ok(None),
        Err(fault) => return Err(fault),
    };
    if header.width != branch.width() {
        return Err(JournalFault::BranchDiffers {
            kept: factor(header.width),
            asked: branch.factor(),
        });
    }
    let Ok(len) = disk.len(file) else {
        return Err(JournalFault::Disk);
    };
    match walk(disk, file, len) {
        Ok(end) => Ok(Some(Journal {
            file,
            generation: header.generation,
            end,
            failed: false,
        })),
        Err(fault) => Err(fault),
    }
}

// Syncs both files. After it a crash leaves what is read.
fn sync_both<D: Disk>(disk: &mut D) -> Result<(), Failed>
    ensures contents { TellsContents D.words.tells → OnOk result (D.words.seen disk.new ≡ D.words.seen disk.old) }
    ensures read_others { TellsContents D.words.tells → (file : ℕ) → 2 ≤ file → D.words.seen disk.new file ≡ D.words.seen disk.old file }
    ensures synced { TellsImages D.words.tells → OnOk result (AreSynced (D.words.seen disk.new) (D.words.moments disk.new)) }
    ensures others { TellsImages D.words.tells → (file : ℕ) → 2 ≤ file → (D.words.moments disk.new).now file ≡ (D.words.moments disk.old).now file }
    ensures meanwhile { TellsImages D.words.tells → Meanwhile (IsImageOf (D.words.moments disk.old).now) (D.words.moments disk.old) (D.words.moments disk.new) }
    ensures cause { HasCause (D.words.faults disk.old) (D.words.faults disk.new) result }
{
    disk.sync(0)?;
    disk.sync(1)
}

impl Journal {
    /// Opens the journal of a disk, and makes it where there is none.
    ///
    /// It syncs both files first: what it reads is then what a crash leaves. It takes no memory.
    pub fn open<D: Disk>(disk: &mut D, branch: Branch) -> Result<Journal, JournalFault>
        ensures found { TellsContents D.words.tells → IfOk result (λ j. IsOpened (width_of branch) (D.words.seen disk.old) j ⊎ (active (D.words.seen disk.old) ≡ Ok None)) }
        ensures opened { TellsContents D.words.tells → IfOk result (IsOpened (width_of branch) (D.words.seen disk.new)) }
        ensures records { TellsContents D.words.tells → (rs : List Record) → Hold (D.words.seen disk.old) rs → IfOk result (λ j. Knows j rs (D.words.seen disk.new)) }
        ensures works { IfOk result (λ j. j.failed ≡ false) }
        ensures start { IfOk result (λ j. first_gate ≤ j.end) }
        ensures refused { TellsContents D.words.tells → IfErr result (Refuses (width_of branch) (D.words.seen disk.old)) }
        ensures sound { TellsContents D.words.tells → (rs : List Record) → Hold (D.words.seen disk.old) rs → IfErr result FailsOrDiffers }
        ensures read_others { TellsContents D.words.tells → (file : ℕ) → 2 ≤ file → D.words.seen disk.new file ≡ D.words.seen disk.old file }
        ensures synced { TellsImages D.words.tells → OnOk result (AreSynced (D.words.seen disk.new) (D.words.moments disk.new)) }
        ensures left { TellsImages D.words.tells → (rs : List Record) → Hold (D.words.seen disk.old) rs → OnOk result (LeavesOnly (λ image. Hold image rs) (D.words.moments disk.new).now) }
        ensures others { TellsImages D.words.tells → (file : ℕ) → 2 ≤ file → (D.words.moments disk.new).now file ≡ (D.words.moments disk.old).now file }
        ensures opens { TellsImages D.words.tells → (rs : List Record) → Hold (D.words.seen disk.old) rs → Opens rs (D.words.moments disk.old) (D.words.moments disk.new) }
        ensures later { D.words.faults disk.old ≤ D.words.faults disk.new }
        ensures disk { IsErrOf result JournalFault.Disk → Rose (D.words.faults disk.old) (D.words.faults disk.new) }
    {
        let Ok(()) = sync_both(disk) else {
            return Err(JournalFault::Disk);
        };
        match find(disk, branch) {
            Ok(Some(journal)) => Ok(journal),
            Ok(None) => match make_header(disk, branch.width()) {
                Ok(()) => Ok(Journal {
                    file: 0,
                    generation: 1,
                    end: FIRST_GATE,
                    failed: false,
                }),
                Err(_) => Err(JournalFault::Disk),
            },
            Err(fault) => Err(fault),
        }
    }
}
