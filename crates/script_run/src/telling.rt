// What lines print, why they are refused, and those that only read.
ghost use Rattle.std.specs.Prelude.{◌≡◌, ◌⊎◌, ◌≤◌, List, [], false, true, Some, option_map, string_bytes, IfOk, IfErr, OnOk, IsErrOf, MatchOption};
ghost use Rattle.std.specs.FinMap as map_of;
ghost use Rattle.std.specs.Io.KnownBytes.{Appends};
ghost use Rattle.base_model.specs.Faults.{Rose, TellsAlike};
ghost use Rattle.base_model.specs.Streams.{AppendsPrefix};
ghost use Rattle.disk_model.specs.Files.{Files};
ghost use Rattle.disk_model.specs.Words.{TellsContents};
ghost use Rattle.trie_model.specs.Maps.{Map, root as root_of_map};
ghost use Rattle.text_model.specs.Texts.{numbered_text, refused_text, value_text, root_text};
ghost use Rattle.session_model.specs.Session.{told};
ghost use Rattle.batch_text.specs.SeenLine.{seen_place};
ghost use Rattle.mdb_journal.specs.Opening.{Untouched};
ghost use Rattle.view_model.specs.Maps.{parent_map};
ghost use Rattle.mdb_core.specs.Stores.{DbState, Keeps, is_failed};
ghost use Rattle.mdb_core.specs.Places.{number_at, is_named, map_at};
ghost use Rattle.session_model.specs.Session.{view_at};
ghost use Rattle.script_run.specs.Ends.{cause_told, fault_end, IsTextOf};
ghost use Rattle.script_run.specs.ScriptSteps.{session_of};

use crate::SessionEnd;
use crate::end::end_of_fault;
use batch_text::PlaceWord;
use bit_keys::Id;
use disk_world::Disk;
use mdb_base::{Sink, write_all};
use mdb_core::{At, Db, DbFault, ViewId, ViewState};
use std::alloc::Global;

/// Prints the text of a line whose work is done.
pub(crate) fn print<K: Sink>(out: &mut K, text: String) -> Result<(), SessionEnd>
    ensures ok { OnOk result (Appends (K.taken out.old) (K.taken out.new) (string_bytes text)) }
    ensures prefix { AppendsPrefix (K.taken out.old) (K.taken out.new) (string_bytes text) }
    ensures err { IfErr result (λ end. (end ≡ SessionEnd.Write) × Rose (K.faults out.old) (K.faults out.new)) }
    ensures tells { TellsAlike (K.taken out.old) (K.taken out.new) }
    ensures later { K.faults out.old ≤ K.faults out.new }
{
    match write_all(out, text.as_bytes()) {
        Ok(()) => Ok(()),
        Err(_) => Err(SessionEnd::Write),
    }
}

/// A line of this sort, with a number and a root.
pub(crate) fn numbered_line(
    alloc: Global,
    sort: &str,
    number: u64,
    root: &Id,
) -> Result<String, SessionEnd>
    ensures { IsTextOf (numbered_text sort.now number root.now) result }
{
    let digits = hex::encode(alloc, root.as_slice())?;
    Ok(format!(in alloc; "{sort}{number} {digits}\n")?)
}

// The line of a root.
fn root_line(alloc: Global, root: &Id) -> Result<String, SessionEnd>
    ensures { IsTextOf (root_text root.now) result }
{
    let digits = hex::encode(alloc, root.as_slice())?;
    Ok(format!(in alloc; "root {digits}\n")?)
}

/// The line of what is at a key. A value of no bytes is a dash.
pub fn value_line(alloc: Global, value: &Option<Vec<u8>>) -> Result<String, SessionEnd>
    ensures { IsTextOf (value_text (option_map (λ v. v.items) value.now)) result }
{
    let Some(value) = value else {
        return Ok(String::from_str(alloc, "none\n")?);
    };
    if value.is_empty() {
        return Ok(String::from_str(alloc, "value -\n")?);
    }
    let digits = hex::encode(alloc, value.as_slice())?;
    Ok(format!(in alloc; "value {digits}\n")?)
}

/// The line that tells why a line is refused.
pub(crate) fn refused_line(alloc: Global, cause: &str) -> Result<String, SessionEnd>
    ensures { IsTextOf (refused_text cause.now) result }
{
    Ok(format!(in alloc; "refused {cause}\n")?)
}

// Why a line is refused, in words; None for a fault that ends the script.
fn cause_of(fault: DbFault) -> Option<&'static str>
    ensures { option_map (λ cause. cause.now) result ≡ cause_told fault }
{
    match fault {
        DbFault::Unknown => Some("unknown"),
        DbFault::NotLive(ViewState::Live) => Some("not live Live"),
        DbFault::NotLive(ViewState::Committed) => Some("not live Committed"),
        DbFault::NotLive(ViewState::Invalid) => Some("not live Invalid"),
        DbFault::NotLive(ViewState::Closed) => Some("not live Closed"),
        DbFault::TooMany => Some("too many"),
        DbFault::TooDeep => Some("too deep"),
        DbFault::TooHeavy => Some("too heavy"),
        DbFault::NotParent => Some("not parent"),
        DbFault::NotHeld => Some("not held"),
        _ => None,
    }
}

/// What a fault of the store makes of a line on a view: the line is refused and says why, or the
/// script ends.
pub(crate) fn refuse(alloc: Global, fault: DbFault) -> Result<String, SessionEnd>
    ensures { MatchOption (cause_told fault) (result ≡ Err (fault_end fault)) (λ cause. IsTextOf (refused_text cause) result) }
{
    match cause_of(fault) {
        Some(cause) => refused_line(alloc, cause),
        None => Err(end_of_fault(fault)),
    }
}

// Where a line reads.
fn place_at(place: PlaceWord) -> At
    ensures number { number_at result ≡ view_at (seen_place place) }
    ensures named { (s : DbState) → is_named s result ≡ true }
    ensures map { (s : DbState) (m : Map) → map_at s m result ≡ Some (parent_map s.forest m (view_at (seen_place place))) }
{
    match place {
        PlaceWord::Db => At::Store,
        PlaceWord::View(number) => At::View(ViewId { number }),
    }
}

/// The line of the value at a key. What is pending is not read.
pub(crate) fn get<D: Disk>(
    alloc: Global,
    db: &mut Db,
    place: PlaceWord,
    key: &[u8],
    disk: &mut D,
) -> Result<String, SessionEnd>
    requires { is_failed db.old ≡ false }
    ensures text { TellsContents D.words.tells → (m : Map) → Keeps db.old m (D.words.seen disk.old)
        → IfOk result (λ text. string_bytes text ≡ (told (session_of m db.old []) (seen_place place) (λ k. value_text (map_of.get k key.now))).text) }
    ensures end { IfErr result (λ end. (end ≡ SessionEnd.NoMemory) ⊎ ((end ≡ SessionEnd.Disk) × Rose (D.words.faults disk.old) (D.words.faults disk.new))) }
    ensures stays { OnOk result (db.new ≡ db.old) }
    ensures failed { is_failed db.new ≡ true → IsErrOf result SessionEnd.Disk }
    ensures width { db.new.width ≡ db.old.width }
    ensures untouched { Untouched (D.words.seen disk.old) (D.words.seen disk.new) (D.words.moments disk.old) (D.words.moments disk.new) }
    ensures later { D.words.faults disk.old ≤ D.words.faults disk.new }
{
    match db.get(alloc, disk, place_at(place), key) {
        Ok(value) => value_line(alloc, &value),
        Err(fault) => refuse(alloc, fault),
    }
}

/// The line of the root. What is pending is not read.
pub(crate) fn root(alloc: Global, db: &Db, place: PlaceWord) -> Result<String, SessionEnd>
    ensures text { (m : Map) (files : Files) → Keeps db.now m files → IsTextOf (told (session_of m db.now []) (seen_place place) (λ k. root_text (root_of_map db.now.width k))).text result }
    ensures end { IfErr result (λ end. end ≡ SessionEnd.NoMemory) }
{
    match place {
        PlaceWord::Db => root_line(alloc, &db.root()),
        PlaceWord::View(number) => match db.root_of(ViewId { number }) {
            Ok(root) => root_line(alloc, &root),
            Err(fault) => refuse(alloc, fault),
        },
    }
}
