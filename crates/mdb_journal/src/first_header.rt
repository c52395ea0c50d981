// The first header, which goes into file 0.
ghost use Rattle.std.specs.Prelude.{◌≡◌, ◌++◌, ◌∷◌, [], true, OnOk};
ghost use Rattle.base_model.specs.Faults.{HasCause};
ghost use Rattle.disk_model.specs.Moments.{Meanwhile};
ghost use Rattle.disk_model.specs.Words.{TellsContents, TellsImages};
ghost use Rattle.store_model.specs.Header.{header_form, is_width, open_gate};
ghost use Rattle.store_model.specs.Journal.{IsJournal};
ghost use Rattle.mdb_journal.specs.DiskMoves.{AreSynced, OthersStay};
ghost use Rattle.mdb_journal.specs.FirstHeader.{BothClosed, IsShut, HoldNone, first_header};

use crate::header::{CLOSED, FIRST_GATE, OPEN};
use crate::synced::write_synced;
use disk_world::{Disk, Failed};

// The first header behind its gate, and the closed gate of the first record.
fn header_bytes(width: u8) -> [u8; 24]
    ensures { open_gate ∷ result ≡ header_form (first_header width) ++ 0 ∷ [] }
{
    [
        0x4d, 0x44, 0x42, 0x56, 0x41, 0x4c, 0x53, 0x01, width, 0, 0, 0, 0, 0, 0, 0, 0, 0, 0, 0, 0,
        0, 1, CLOSED,
    ]
}

// Makes sure that there is a gate, which is closed.
fn close_gate<D: Disk>(disk: &mut D) -> Result<(), Failed>
    ensures contents { TellsContents D.words.tells → BothClosed (D.words.seen disk.old) → OnOk result (IsShut (D.words.seen disk.new 0)) }
    ensures read_others { TellsContents D.words.tells → OthersStay 0 (D.words.seen disk.old) (D.words.seen disk.new) }
    ensures synced { TellsImages D.words.tells → AreSynced (D.words.seen disk.old) (D.words.moments disk.old) → OnOk result (AreSynced (D.words.seen disk.new) (D.words.moments disk.new)) }
    ensures others { TellsImages D.words.tells → OthersStay 0 (D.words.moments disk.old).now (D.words.moments disk.new).now }
    ensures meanwhile { TellsImages D.words.tells → BothClosed (D.words.seen disk.old) → AreSynced (D.words.seen disk.old) (D.words.moments disk.old)
        → Meanwhile HoldNone (D.words.moments disk.old) (D.words.moments disk.new) }
    ensures cause { HasCause (D.words.faults disk.old) (D.words.faults disk.new) result }
{
    if disk.len(0)? <= FIRST_GATE {
        return write_synced(disk, 0, 0, &[CLOSED]);
    }
    Ok(())
}

// Writes a header behind the closed gate, and then opens it.
fn write_header<D: Disk>(disk: &mut D, width: u8) -> Result<(), Failed>
    requires { is_width width ≡ true }
    ensures contents { TellsContents D.words.tells → IsShut (D.words.seen disk.old 0) → OnOk result (IsJournal (first_header width) [] (D.words.seen disk.new 0)) }
    ensures read_others { TellsContents D.words.tells → OthersStay 0 (D.words.seen disk.old) (D.words.seen disk.new) }
    ensures synced { TellsImages D.words.tells → AreSynced (D.words.seen disk.old) (D.words.moments disk.old) → OnOk result (AreSynced (D.words.seen disk.new) (D.words.moments disk.new)) }
    ensures others { TellsImages D.words.tells → OthersStay 0 (D.words.moments disk.old).now (D.words.moments disk.new).now }
    ensures meanwhile { TellsImages D.words.tells → BothClosed (D.words.seen disk.old) → IsShut (D.words.seen disk.old 0) → AreSynced (D.words.seen disk.old) (D.words.moments disk.old)
        → Meanwhile HoldNone (D.words.moments disk.old) (D.words.moments disk.new) }
    ensures cause { HasCause (D.words.faults disk.old) (D.words.faults disk.new) result }
{
    write_synced(disk, 0, 1, &header_bytes(width))?;
    write_synced(disk, 0, 0, &[OPEN])
}

// The first header.
pub(crate) fn make_header<D: Disk>(disk: &mut D, width: u8) -> Result<(), Failed>
    requires { is_width width ≡ true }
    ensures contents { TellsContents D.words.tells → BothClosed (D.words.seen disk.old) → OnOk result (IsJournal (first_header width) [] (D.words.seen disk.new 0)) }
    ensures read_others { TellsContents D.words.tells → OthersStay 0 (D.words.seen disk.old) (D.words.seen disk.new) }
    ensures synced { TellsImages D.words.tells → AreSynced (D.words.seen disk.old) (D.words.moments disk.old) → OnOk result (AreSynced (D.words.seen disk.new) (D.words.moments disk.new)) }
    ensures others { TellsImages D.words.tells → OthersStay 0 (D.words.moments disk.old).now (D.words.moments disk.new).now }
    ensures meanwhile { TellsImages D.words.tells → BothClosed (D.words.seen disk.old) → AreSynced (D.words.seen disk.old) (D.words.moments disk.old)
        → Meanwhile HoldNone (D.words.moments disk.old) (D.words.moments disk.new) }
    ensures cause { HasCause (D.words.faults disk.old) (D.words.faults disk.new) result }
{
    close_gate(disk)?;
    write_header(disk, width)
}
