// Where the values of a batch stand, and what it makes of the index.
ghost use Rattle.std.specs.Prelude.{◌≡◌, ℕ, ◌+◌, ◌^◌, ◌<◌, ◌≤◌, None, List, length, IsSome, OnOk, OnErr, count_by};
ghost use Rattle.std.specs.FinMap as map_of;
ghost use Rattle.std.specs.List.{AllByRecursion, flat_map};
ghost use Rattle.trie_model.specs.Maps.{limits};
ghost use Rattle.batch_model.specs.Batch.{IsChange, AreRising, change_form};
ghost use Rattle.value_store.specs.Index.{IsShort, up_to};
ghost use Rattle.value_store.specs.BatchReading.{laid};
ghost use Rattle.value_store.specs.ValuePlaces.{value_place, laid_all, room_for, with_room, adds, takes, HasRoom};

use crate::Place;
use crate::index::Index;
use mdb_base::{Change, NoMemory, uvarint_len};
use std::alloc::Global;

// Where the value of a change stands that is spelled at a place, and the place behind the change.
fn spelled_at(change: &Change, at: u64) -> (Option<Place>, u64)
    requires within { IsChange limits change.now }
    requires limit { at + length (change_form change.now) < 2 ^ 64 }
    ensures place { result.0 ≡ value_place at change.now }
    ensures next { result.1 ≡ at + length (change_form change.now) }
{
    let flag = at + uvarint_len(change.key.len() as u64) + change.key.len() as u64;
    match &change.value {
        Some(value) => {
            let start = flag + 1 + uvarint_len(value.len() as u64);
            let count = value.len() as u32;
            (Some(Place { start, count }), start + u64::from(count))
        }
        None => (None, flag + 1),
    }
}

fn adds(index: &Index, change: &Change) -> bool
    ensures { result ≡ adds index.now change.now }
{
    change.value.is_some() && index.get(&change.key).is_none()
}

fn takes(index: &Index, change: &Change) -> bool
    ensures { result ≡ takes index.now change.now }
{
    change.value.is_none() && index.get(&change.key).is_some()
}

fn count_added(index: &Index, changes: &[Change]) -> u64
    ensures count { result ≡ count_by (adds index.now) changes.now }
    ensures few { result < 2 ^ 63 }
{
    changes.iter().filter(|change| adds(index, change)).count() as u64
}

fn count_taken(index: &Index, changes: &[Change]) -> u64
    ensures { result ≡ count_by (takes index.now) changes.now }
{
    changes.iter().filter(|change| takes(index, change)).count() as u64
}

/// How many keys there are after the changes.
pub(crate) fn len_after(index: &Index, changes: &[Change]) -> u64
    requires { AreRising None changes.now }
    ensures { (at : ℕ) → result ≡ map_of.len (laid_all at changes.now index.now) }
{
    index.len() as u64 + count_added(index, changes) - count_taken(index, changes)
}

// Puts a place at a key that has none.
fn make_room(
    alloc: Global,
    index: &mut Index,
    key: &[u8],
    place: Option<Place>,
) -> Result<(), NoMemory>
    requires { IsShort key.now }
    ensures ok { OnOk result (index.new ≡ room_for index.old key.now place) }
    ensures err { OnErr result (index.new ≡ index.old) }
{
    match place {
        Some(place) if index.get(key).is_none() => index.put(Vec::from_slice(alloc, key)?, place),
        _ => Ok(()),
    }
}

// The same for all changes, until memory runs out.
fn fill_room(
    alloc: Global,
    index: &mut Index,
    changes: &[Change],
    start: u64,
    end: u64,
) -> Result<(), NoMemory>
    requires within { AllByRecursion (IsChange limits) changes.now }
    requires limit { start + length (flat_map change_form changes.now) < 2 ^ 64 }
    requires behind { end < start }
    ensures ok { OnOk result (index.new ≡ with_room start changes.now index.old) }
    ensures back { ((key : List ℕ) → up_to end (map_of.get index.old key) ≡ map_of.get index.old key) → (key : List ℕ) → up_to end (map_of.get index.new key) ≡ map_of.get index.old key }
{
    let mut at = start;
    for change in changes {
        let (place, next) = spelled_at(change, at);
        make_room(alloc, index, &change.key, place)?;
        at = next;
    }
    Ok(())
}

/// Makes room for the places of the keys that are put, or leaves the index as it was.
///
/// What is added begins behind the end, and so `Index::cut` takes it back.
pub(crate) fn add_room(
    alloc: Global,
    index: &mut Index,
    changes: &[Change],
    start: u64,
    end: u64,
) -> Result<(), NoMemory>
    requires within { AllByRecursion (IsChange limits) changes.now }
    requires limit { start + length (flat_map change_form changes.now) < 2 ^ 64 }
    requires behind { end < start }
    requires before { (key : List ℕ) → up_to end (map_of.get index.old key) ≡ map_of.get index.old key }
    ensures ok { OnOk result (index.new ≡ with_room start changes.now index.old) }
    ensures back { (key : List ℕ) → up_to end (map_of.get index.new key) ≡ map_of.get index.old key }
    ensures err { OnErr result (index.new ≡ index.old) }
{
    match fill_room(alloc, index, changes, start, end) {
        Ok(()) => Ok(()),
        Err(want) => {
            index.cut(end);
            Err(want)
        }
    }
}

fn set_or_remove(index: &mut Index, key: &[u8], place: Option<Place>)
    ensures { (IsSome place → IsSome (map_of.get index.old key.now)) → index.new ≡ laid index.old key.now place }
{
    match place {
        Some(place) => index.set(key, place),
        None => index.remove(key),
    }
}

/// Puts the places of the values, and takes out the keys that are deleted. It takes no memory.
pub(crate) fn settle(index: &mut Index, changes: &[Change], start: u64)
    requires within { AllByRecursion (IsChange limits) changes.now }
    requires rising { AreRising None changes.now }
    requires limit { start + length (flat_map change_form changes.now) < 2 ^ 64 }
    requires room { HasRoom start changes.now index.old }
    ensures { index.new ≡ laid_all start changes.now index.old }
{
    let mut at = start;
    for change in changes {
        let (place, next) = spelled_at(change, at);
        set_or_remove(index, &change.key, place);
        at = next;
    }
}
