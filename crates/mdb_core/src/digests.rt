// The digests of a map, by its keys.
ghost use Rattle.std.specs.Prelude.{◌≡◌, ◌+◌, [], length, option_map, IfOk, OnOk, OnErr};
ghost use Rattle.std.specs.FinMap.Entries.{put};
ghost use Rattle.std.specs.Map.{remove_entry};
ghost use Rattle.std.specs.BTreeMap.{is_at};
ghost use Rattle.base_model.specs.Bytes.{bytes_cmp};
ghost use Rattle.trie_model.specs.Hashing.{value_digest as digest_of};
ghost use Rattle.trie_model.specs.Maps.{Map, limits, map_digests, map_items, root as root_of_map};
ghost use Rattle.trie_model.specs.Strings.{strings};
ghost use Rattle.trie_model.specs.Table.{table};
ghost use Rattle.batch_model.specs.Batch.{IsChange, put_or_removed, after_batch};
ghost use Rattle.bit_keys.specs.Branch.{width_of};
ghost use Rattle.trie_items.specs.Sources.{next_key};
ghost use Rattle.node_table.specs.Pairs.{AreShort};
ghost use Rattle.mdb_core.specs.Stores.{keys_of};

use bit_keys::{Branch, Id};
use map_root::{Builder, root_of_builder, table_of_builder};
use mdb_base::{Batch, Change, NoMemory};
use node_table::NodeTable;
use smallvec::SmallVec;
use std::alloc::Global;
use std::collections::BTreeMap;
use std::marker::Model;
use std::ops::Bound;
use std::sync::ledger::Ledger;
use trie_items::{Digest, Steps, value_digest};
use value_store::PairSink;

/// The bytes of a key. Up to 32 of them are kept in place.
pub type KeyBytes = SmallVec<u8, 32>;

/// What is kept of a map to know its root: the digest of each value, in the order of the keys.
#[derive(Drop)]
pub struct Digests {
    entries: BTreeMap<KeyBytes, Digest>,
}

impl Model for Digests {
    ghost use Rattle.std.specs.Prelude.{ℕ, List, map};

    ghost Value = { List (List ℕ × List ℕ) };

    ghost view = { λ d. map (λ e. (e.0.items, e.1)) d.entries.entries };
}

impl PairSink for Digests {
    ghost takes = { λ old key value new. new ≡ put bytes_cmp key (digest_of value) old };

    fn take(&mut self, alloc: Global, key: &[u8], value: &[u8]) -> Result<(), NoMemory> {
        self.put_copy(alloc, key, value_digest(value))
    }
}

fn key_of<'a>(pair: Option<(&'a KeyBytes, &'a Digest)>) -> Option<&'a [u8]>
    ensures { option_map (λ key. key.now) result ≡ option_map (λ p. p.0.now.items) pair.entry }
{
    match pair {
        Some((key, _)) => Some(key.as_slice()),
        None => None,
    }
}

impl Digests {
    /// No digest.
    pub fn new(alloc: Global) -> Self
        ensures { result ≡ [] }
    {
        Digests {
            entries: BTreeMap::new(alloc),
        }
    }

    /// Puts a digest at a key, in the place of the one that is there.
    pub fn put(&mut self, key: KeyBytes, digest: Digest) -> Result<(), NoMemory>
        ensures ok { OnOk result (self.new ≡ put bytes_cmp key.items digest self.old) }
        ensures err { OnErr result (self.new ≡ self.old) }
    {
        self.entries.insert(key, digest)?;
        Ok(())
    }

    /// Deletes a key, where it is there.
    pub fn remove(&mut self, key: &KeyBytes)
        ensures { self.new ≡ remove_entry (is_at (bytes_cmp key.now.items)) self.old }
    {
        self.entries.remove(key);
    }

    /// Puts a digest at a copy of the key, in the place of the one that is there.
    pub(crate) fn put_copy(
        &mut self,
        alloc: Global,
        key: &[u8],
        digest: Digest,
    ) -> Result<(), NoMemory>
        ensures ok { OnOk result (self.new ≡ put bytes_cmp key.now digest self.old) }
        ensures err { OnErr result (self.new ≡ self.old) }
    {
        match KeyBytes::from_slice(alloc, key) {
            Ok(key) => self.put(key, digest),
            Err(_) => Err(NoMemory),
        }
    }

    // Deletes a key, where it is there. It takes memory for a longer key.
    fn remove_bytes(&mut self, alloc: Global, key: &[u8]) -> Result<(), NoMemory>
        ensures { OnOk result (self.new ≡ remove_entry (is_at (bytes_cmp key.now)) self.old) }
    {
        let key = KeyBytes::from_slice(alloc, key)?;
        self.remove(&key);
        Ok(())
    }

    // Lays one change on the map.
    fn lay_change(&mut self, alloc: Global, change: &Change) -> Result<(), NoMemory>
        requires { IsChange limits change.now }
        ensures short { AreShort (keys_of self.old) → OnOk result (AreShort (keys_of self.new)) }
        ensures laid { (m : Map) → self.old ≡ map_digests m → OnOk result (self.new ≡ map_digests (put_or_removed m change.now.key change.now.value)) }
    {
        match &change.value {
            Some(value) => self.put_copy(alloc, &change.key, value_digest(value)),
            None => self.remove_bytes(alloc, &change.key),
        }
    }

    /// Lays a batch on the map. Where memory runs out a part of it was laid.
    pub fn lay(&mut self, alloc: Global, batch: &Batch) -> Result<(), NoMemory>
        ensures short { AreShort (keys_of self.old) → OnOk result (AreShort (keys_of self.new)) }
        ensures laid { (m : Map) → self.old ≡ map_digests m → OnOk result (self.new ≡ map_digests (after_batch m batch.now)) }
    {
        for change in batch.changes() {
            self.lay_change(alloc, change)?;
        }
        Ok(())
    }

    /// Equal digests.
    pub fn copy(&self, alloc: Global) -> Result<Digests, NoMemory>
        ensures { IfOk result (λ copy. copy ≡ self.now) }
    {
        let mut copy = Digests::new(alloc);
        for (key, digest) in &self.entries {
            copy.put_copy(alloc, key.as_slice(), digest.copy())?;
        }
        Ok(copy)
    }

    fn builder(&self, alloc: Global, branch: Branch) -> Result<Builder, NoMemory>
        ensures branch { IfOk result (λ builder. builder.branch ≡ branch) }
        ensures pairs { IfOk result (λ builder. builder.pairs ≡ self.now) }
    {
        let mut builder = Builder::new(alloc, branch);
        for (key, digest) in &self.entries {
            builder.add(key.as_slice(), digest.copy())?;
        }
        Ok(builder)
    }

    /// The nodes of the map's trie.
    pub(crate) fn nodes(&self, alloc: Global, branch: Branch) -> Result<NodeTable, NoMemory>
        ensures { IfOk result (λ nodes. (m : Map) → self.now ≡ map_digests m → nodes ≡ table (width_of branch) m) }
    {
        let (_root, rows) = table_of_builder(alloc, self.builder(alloc, branch)?)?;
        NodeTable::new(alloc, rows)
    }

    /// The least key at or above that one, or above it where `past`.
    pub(crate) fn next(
        &self,
        alloc: Global,
        from: &[u8],
        past: bool,
    ) -> Result<Option<Vec<u8>>, NoMemory>
        ensures { IfOk result (λ key. option_map (λ key. key.items) key ≡ next_key past from.now (keys_of self.now)) }
    {
        let from = KeyBytes::from_slice(alloc, from)?;
        match self.next_in_order(from, past) {
            Some(key) => Ok(Some(Vec::from_slice(alloc, key)?)),
            None => Ok(None),
        }
    }

    fn next_in_order(&self, from: KeyBytes, past: bool) -> Option<&[u8]>
        ensures { option_map (λ key. key.now) result ≡ next_key past from.items (keys_of self.now) }
    {
        if past {
            let bounds = (Bound::Excluded(from), Bound::Unbounded);
            key_of(self.entries.range(bounds).next())
        } else {
            key_of(self.entries.range(from..).next())
        }
    }

    /// The root of the map.
    pub fn root(&self, alloc: Global, branch: Branch) -> Result<Id, NoMemory>
        ensures { IfOk result (λ id. (m : Map) → self.now ≡ map_digests m → id ≡ root_of_map (width_of branch) m) }
    {
        root_of_builder(alloc, self.builder(alloc, branch)?)
    }

    /// The root of the map. `steps` counts each node that is hashed, and each is hashed once.
    pub fn counted_root<L: Ledger>(
        &self,
        alloc: Global,
        branch: Branch,
        steps: &mut Steps<L>,
    ) -> Result<Id, NoMemory>
        ensures root { IfOk result (λ id. (m : Map) → self.now ≡ map_digests m → id ≡ root_of_map (width_of branch) m) }
        ensures cost { OnOk result ((m : Map) → self.now ≡ map_digests m → steps.new ≡ steps.old + length (strings (width_of branch) (map_items m))) }
    {
        self.builder(alloc, branch)?.finish_root(alloc, steps)
    }

    /// The root of the map, for one who needs the digests no longer: their memory is given back on the way.
    pub fn into_root(self, alloc: Global, branch: Branch) -> Result<Id, NoMemory>
        ensures { IfOk result (λ id. (m : Map) → self ≡ map_digests m → id ≡ root_of_map (width_of branch) m) }
    {
        let Digests { entries } = self;
        let mut builder = Builder::new(alloc, branch);
        for (key, digest) in entries {
            builder.add(key.as_slice(), digest)?;
        }
        root_of_builder(alloc, builder)
    }
}
