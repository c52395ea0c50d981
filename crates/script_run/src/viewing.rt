// Views: a pending batch becomes one, one is closed, and it is told how one stands.
ghost use Rattle.std.specs.Prelude.{◌≡◌, ◌<◌, ℕ, List, [], Ok, false, IfErr};
ghost use Rattle.disk_model.specs.Files.{Files};
ghost use Rattle.trie_model.specs.Maps.{Map};
ghost use Rattle.batch_model.specs.Batch.{Change};
ghost use Rattle.text_model.specs.Texts.{view_text, closed_text, state_text};
ghost use Rattle.view_model.specs.Forest.{state as state_of};
ghost use Rattle.session_model.specs.Session.{view as view_of, view_at, close as close_of, told_state, or_limit};
ghost use Rattle.session_model.specs.Refusals.{state_word};
ghost use Rattle.view_stack.specs.ViewAnswers.{number_in, state_meant};
ghost use Rattle.batch_text.specs.SeenLine.{seen_place};
ghost use Rattle.mdb_core.specs.Stores.{Keeps, is_failed, root_at};
ghost use Rattle.script_run.specs.Ends.{IsTextOf, StepCause};
ghost use Rattle.script_run.specs.ScriptSteps.{IsQuiet, session_of};

use crate::SessionEnd;
use crate::telling::{numbered_line, refuse, refused_line};
use batch_text::PlaceWord;
use disk_world::Disk;
use mdb_base::Batch;
use mdb_core::{Db, ViewId, ViewState};
use std::alloc::Global;
use std::marker::Brand;
use std::sync::ledger::{Blank, Ledger};
use trie_items::Steps;

// The view on which a new one stands; None for the store.
fn parent_of(place: PlaceWord) -> Option<ViewId>
    ensures { number_in result ≡ view_at (seen_place place) }
{
    match place {
        PlaceWord::Db => None,
        PlaceWord::View(number) => Some(ViewId { number }),
    }
}

// The line of a view that was just made, and so is live.
fn line_of_view(alloc: Global, db: &Db, id: ViewId) -> Result<String, SessionEnd>
    ensures { IsTextOf (view_text id.number (root_at db.now.roots id.number)) result }
{
    let Ok(root) = db.root_of(id) else {
        return Err(SessionEnd::NoMemory);
    };
    numbered_line(alloc, "view ", id.number, &root)
}

// Makes a view, with hashes that nobody counts.
fn propose<D: Disk, L: Ledger>(
    alloc: Global,
    db: &mut Db,
    place: PlaceWord,
    batch: Batch,
    disk: &mut D,
    blank: Blank,
) -> Result<String, SessionEnd>
    requires name { blank.name ≡ L.name }
    requires parts { blank.parts ≡ L.parts }
    requires some { 0 < blank.parts }
    requires works { is_failed db.old ≡ false }
    ensures quiet { (m : Map) (files : Files) → Keeps db.old m files
        → IsQuiet (or_limit (view_of db.old.width (session_of m db.old batch) (seen_place place))) result db.new [] files }
    ensures cause { (writes writes' disks disks' : ℕ) → IfErr result (StepCause writes writes' disks disks') }
    ensures works { is_failed db.new ≡ false }
    ensures width { db.new.width ≡ db.old.width }
    ensures disk { disk.new ≡ disk.old }
{
    let mut steps = Steps::<L>::new(blank);
    match db.view(alloc, disk, parent_of(place), batch, &mut steps) {
        Ok(id) => line_of_view(alloc, db, id),
        Err(fault) => refuse(alloc, fault),
    }
}

/// Makes a view of a batch, and tells its number and its root.
pub(crate) fn view<D: Disk>(
    alloc: Global,
    db: &mut Db,
    place: PlaceWord,
    batch: Batch,
    disk: &mut D,
) -> Result<String, SessionEnd>
    requires works { is_failed db.old ≡ false }
    ensures quiet { (m : Map) (files : Files) → Keeps db.old m files
        → IsQuiet (or_limit (view_of db.old.width (session_of m db.old batch) (seen_place place))) result db.new [] files }
    ensures cause { (writes writes' disks disks' : ℕ) → IfErr result (StepCause writes writes' disks disks') }
    ensures works { is_failed db.new ≡ false }
    ensures width { db.new.width ≡ db.old.width }
    ensures disk { disk.new ≡ disk.old }
{
    propose::<D, Brand>(alloc, db, place, batch, disk, Blank::new(1))
}

// The line of a view that was closed.
fn closed_line(alloc: Global, number: u64) -> Result<String, SessionEnd>
    ensures { IsTextOf (closed_text number) result }
{
    Ok(format!(in alloc; "closed {number}\n")?)
}

/// Closes a view, and tells its number.
pub(crate) fn close(alloc: Global, db: &mut Db, number: u64) -> Result<String, SessionEnd>
    ensures quiet { (m : Map) (pending : List Change) (files : Files) → Keeps db.old m files
        → IsQuiet (Ok (close_of (session_of m db.old pending) number)) result db.new pending files }
    ensures end { IfErr result (λ end. end ≡ SessionEnd.NoMemory) }
    ensures failed { is_failed db.new ≡ is_failed db.old }
    ensures width { db.new.width ≡ db.old.width }
{
    match db.close_view(ViewId { number }) {
        Ok(()) => closed_line(alloc, number),
        Err(fault) => refuse(alloc, fault),
    }
}

// The word of a state.
fn word_of_state(state: ViewState) -> &'static str
    ensures { result.now ≡ state_word (state_meant state) }
{
    match state {
        ViewState::Live => "Live",
        ViewState::Committed => "Committed",
        ViewState::Invalid => "Invalid",
        ViewState::Closed => "Closed",
    }
}

// The line of how a view stands.
fn state_line(alloc: Global, number: u64, state: ViewState) -> Result<String, SessionEnd>
    ensures { IsTextOf (state_text number (state_word (state_meant state))) result }
{
    let word = word_of_state(state);
    Ok(format!(in alloc; "state {number} {word}\n")?)
}

/// Tells how a view stands.
pub(crate) fn state(alloc: Global, db: &Db, number: u64) -> Result<String, SessionEnd>
    ensures { IsTextOf (told_state number (state_of db.now.forest number)).text result }
{
    match db.state(ViewId { number }) {
        Some(state) => state_line(alloc, number, state),
        None => refused_line(alloc, "unknown"),
    }
}
