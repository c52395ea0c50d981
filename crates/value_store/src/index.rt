// Where the values of a store stand, by their keys.
ghost use Rattle.std.specs.Prelude.{◌≡◌, ◌⊎◌, ℕ, ◌+◌, ◌^◌, ◌<◌, ◌≤◌, true, false, None, List, map, IsSome, IfErr, IsErrOf, OnOk, OnErr, option_map, option_copied};
ghost use Rattle.std.specs.FinMap as map_of;
ghost use Rattle.std.specs.List.{AllByRecursion};
ghost use Rattle.base_model.specs.Bytes.{bytes_cmp};
ghost use Rattle.base_model.specs.Faults.{Rose};
ghost use Rattle.disk_model.specs.Words.{TellsContents};
ghost use Rattle.mdb_journal.specs.Opening.{Untouched};
ghost use Rattle.value_store.specs.PairSinks.{TakesAll};
ghost use Rattle.value_store.specs.Values.{is_next, next_of, last_of, pair_in};
ghost use Rattle.value_store.specs.Index.{AreInFile, IsShort, up_to};

use crate::place_reading::read_value;
use crate::{PairSink, Place, ValueFault};
use disk_world::Disk;
use mdb_base::NoMemory;
use mdb_journal::Journal;
use std::alloc::Global;
use std::collections::BTreeMap;
use std::marker::Model;
use std::ops::Bound;

/// The places of values, in the order of their keys, each of which is within its limit.
#[derive(Drop)]
pub(crate) struct Index {
    places: BTreeMap<Vec<u8>, Place>,
    alloc: Global,
}

impl Model for Index {
    ghost use Rattle.value_store.specs.Index.{Places, places_code, places_of, AreInOrder, HasShortKeys};

    ghost Value = { Places };

    ghost coded = { places_code };

    ghost view = { λ x. places_of x.places.entries };

    ghost invariant = { λ x. AreInOrder x.places.entries × HasShortKeys (places_of x.places.entries) };
}

// The key is at or above that one, or above it where `past`.
fn is_next(from: &[u8], past: bool, key: &[u8]) -> bool
    ensures { result ≡ is_next from.now past key.now }
{
    let order = from.cmp(key);
    order.is_lt() || (!past && order.is_eq())
}

fn key_of<'a>(pair: Option<(&'a Vec<u8>, &'a Place)>) -> Option<&'a [u8]>
    ensures { option_map (λ key. key.now) result ≡ option_map (λ p. p.0.now.items) pair.entry }
{
    match pair {
        Some((key, _)) => Some(key.as_slice()),
        None => None,
    }
}

impl Index {
    pub(crate) fn new(alloc: Global) -> Index
        ensures { result ≡ map_of.empty }
    {
        Index {
            places: BTreeMap::new(alloc),
            alloc,
        }
    }

    /// How many keys there are.
    pub(crate) fn len(&self) -> usize
        ensures len { result ≡ map_of.len self.now }
        ensures small { result < 2 ^ 63 }
    {
        self.places.len()
    }

    pub(crate) fn get(&self, key: &[u8]) -> Option<Place>
        ensures { result ≡ map_of.get self.now key.now }
    {
        self.places.get(key).copied()
    }

    /// Puts a place at a key, in the place of the one that is there.
    pub(crate) fn put(&mut self, key: Vec<u8>, place: Place) -> Result<(), NoMemory>
        requires { IsShort key.items }
        ensures ok { OnOk result (self.new ≡ map_of.insert self.old key.items place) }
        ensures err { OnErr result (self.new ≡ self.old) }
    {
        self.places.insert(key, place)?;
        Ok(())
    }

    /// Puts a place at a key that is there. It takes no memory.
    pub(crate) fn set(&mut self, key: &[u8], place: Place)
        ensures there { IsSome (map_of.get self.old key.now) → self.new ≡ map_of.insert self.old key.now place }
        ensures absent { map_of.get self.old key.now ≡ None → self.new ≡ self.old }
    {
        if let Some(slot) = self.places.get_mut(key) {
            *slot = place;
        }
    }

    pub(crate) fn remove(&mut self, key: &[u8])
        ensures { self.new ≡ map_of.remove self.old key.now }
    {
        self.places.remove(key);
    }

    /// Takes out the keys whose values begin behind that place.
    pub(crate) fn cut(&mut self, end: u64)
        ensures { (key : List ℕ) → map_of.get self.new key ≡ up_to end (map_of.get self.old key) }
    {
        self.places.retain(|_, place| place.start <= end);
    }

    /// The least key at or above that one, or above it where `past`.
    ///
    /// The search takes memory for a copy of that key; where there is none, it goes through all keys.
    pub(crate) fn next(&self, from: &[u8], past: bool) -> Option<&[u8]>
        ensures { option_map (λ key. key.now) result ≡ next_of (map_of.keys self.now) from.now past }
    {
        match Vec::from_slice(self.alloc, from) {
            Ok(key) => self.next_in_order(key, past),
            Err(_) => self.first_next(from, past),
        }
    }

    fn next_in_order(&self, from: Vec<u8>, past: bool) -> Option<&[u8]>
        ensures { option_map (λ key. key.now) result ≡ next_of (map_of.keys self.now) from.items past }
    {
        if past {
            let bounds = (Bound::Excluded(from), Bound::Unbounded);
            key_of(self.places.range(bounds).next())
        } else {
            key_of(self.places.range(from..).next())
        }
    }

    fn first_next(&self, from: &[u8], past: bool) -> Option<&[u8]>
        ensures { option_map (λ key. key.now) result ≡ next_of (map_of.keys self.now) from.now past }
    {
        for key in self.places.keys() {
            if is_next(from, past, key) {
                return Some(key.as_slice());
            }
        }
        None
    }

    /// Reads the value at each place, in the order of the keys, and hands it on with its key.
    pub(crate) fn each<D: Disk, P: PairSink>(
        &self,
        alloc: Global,
        journal: &mut Journal,
        disk: &mut D,
        pairs: &mut P,
    ) -> Result<(), ValueFault>
        requires works { journal.old.failed ≡ false }
        requires within { AreInFile journal.old.end self.now }
        ensures taken { TellsContents D.words.tells → OnOk result (TakesAll P.takes pairs.old (map (pair_in (D.words.seen disk.old journal.old.file)) (map_of.entries self.now)) pairs.new) }
        ensures some { OnOk result ((es : List (List ℕ × List ℕ)) × AllByRecursion (λ e. IsShort e.0) es × TakesAll P.takes pairs.old es pairs.new) }
        ensures fault { IfErr result (λ fault. (fault ≡ ValueFault.Disk) ⊎ (fault ≡ ValueFault.NoMemory)) }
        ensures fails { IsErrOf result ValueFault.Disk → journal.new ≡ record journal.old { failed = true } }
        ensures stays { (IsErrOf result ValueFault.Disk → ⊥) → journal.new ≡ journal.old }
        ensures untouched { Untouched (D.words.seen disk.old) (D.words.seen disk.new) (D.words.moments disk.old) (D.words.moments disk.new) }
        ensures later { D.words.faults disk.old ≤ D.words.faults disk.new }
        ensures disk { IsErrOf result ValueFault.Disk → Rose (D.words.faults disk.old) (D.words.faults disk.new) }
    {
        for (key, place) in &self.places {
            let value = match read_value(alloc, journal, disk, *place) {
                Ok(value) => value,
                Err(fault) => return Err(fault),
            };
            let Ok(()) = pairs.take(alloc, key, &value) else {
                return Err(ValueFault::NoMemory);
            };
        }
        Ok(())
    }

    /// The greatest key.
    pub(crate) fn last(&self) -> Option<&[u8]>
        ensures { option_map (λ key. key.now) result ≡ last_of (map_of.keys self.now) }
    {
        key_of(self.places.last_key_value())
    }
}
