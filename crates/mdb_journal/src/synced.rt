// A write that is synced.
ghost use Rattle.std.specs.Prelude.{◌≡◌, ℕ, ◌+◌, ◌≤◌, List, length, OnOk};
ghost use Rattle.base_model.specs.Faults.{HasCause};
ghost use Rattle.disk_model.specs.Files.{Alone, written, first_touched, file_limit};
ghost use Rattle.disk_model.specs.Moments.{Meanwhile};
ghost use Rattle.disk_model.specs.Words.{TellsContents, TellsImages};
ghost use Rattle.mdb_journal.specs.DiskMoves.{IsSynced, Rests, OthersStay, TornAlone};

use disk_world::{Disk, Failed};

// Writes bytes and syncs them.
pub(crate) fn write_synced<D: Disk>(
    disk: &mut D,
    file: u8,
    at: u64,
    bytes: &[u8],
) -> Result<(), Failed>
    requires { file ≤ 4 }
    ensures limit { OnOk result (at + length bytes.now ≤ file_limit) }
    ensures contents { TellsContents D.words.tells → Alone file (λ was is. OnOk result (is ≡ written was at bytes.now)) (D.words.seen disk.old) (D.words.seen disk.new) }
    ensures synced { TellsImages D.words.tells → OnOk result (IsSynced file (D.words.seen disk.new) (D.words.moments disk.new)) }
    ensures meanwhile { TellsImages D.words.tells → (s : List ℕ) → Rests file s (D.words.seen disk.old) (D.words.moments disk.old)
        → Meanwhile (TornAlone (D.words.moments disk.old) file (first_touched s at) (at + length bytes.now) s) (D.words.moments disk.old) (D.words.moments disk.new) }
    ensures others { TellsImages D.words.tells → OthersStay file (D.words.moments disk.old).now (D.words.moments disk.new).now }
    ensures cause { HasCause (D.words.faults disk.old) (D.words.faults disk.new) result }
{
    disk.write_at(file, at, bytes)?;
    disk.sync(file)
}
