ghost use Rattle.std.specs.Prelude.{◌≡◌, ◌↔◌, map, IfOk, IfSome, IsSome, None, option_map};
ghost use Rattle.std.specs.Option.{option_copied};
ghost use Rattle.std.specs.FinMap as map_of;
ghost use Rattle.base_model.specs.Bytes.{bytes_cmp};
ghost use Rattle.trie_model.specs.Maps.{Map, digest_entry};
ghost use Rattle.trie_items.specs.Sources.{AreAscending, is_ahead, next_key};
ghost use Rattle.node_table.specs.Pairs.{AreShort, AreAscending-prop, AreShort-prop, are_good, is_above, keys_of, pairs_of};

use crate::table::NodeTable;
use bit_keys::{Branch, Key};
use map_root::{Builder, table_of_builder};
use mdb_base::{KEY_LIMIT, NoMemory};
use node_codec::Node;
use std::alloc::Global;
use std::cmp::Ordering;
use trie_items::{NodeSource, ShownNode, SourceFault, value_digest};

/// A source over a table of nodes and pairs in memory. It tells the map whose table and pairs they are, and
/// never fails.
#[derive(Drop)]
pub struct TableSource {
    /// How many children a node may have.
    pub branch: Branch,
    /// The nodes.
    pub table: NodeTable,
    /// The pairs, in the order of their keys.
    pub pairs: Vec<(Vec<u8>, Vec<u8>)>,
    ghost in_order: { AreAscending (keys_of pairs.items) } by { AreAscending-prop (keys_of pairs.items) },
    ghost short: { AreShort (keys_of pairs.items) } by { AreShort-prop (keys_of pairs.items) },
}

/// Whether each key is above the one before it, and none is longer than a key may be.
fn are_in_order(pairs: &[(Vec<u8>, Vec<u8>)]) -> bool
    ensures { result ≡ are_good None (keys_of pairs.now) }
{
    let mut last: Option<&[u8]> = None;
    for (key, _value) in pairs {
        if !is_above(last, key.as_slice()) || key.len() > KEY_LIMIT {
            return false;
        }
        last = Some(key.as_slice());
    }
    true
}

fn is_above(last: Option<&[u8]>, key: &[u8]) -> bool
    ensures { result ≡ is_above (option_copied last.entry) key.now }
{
    match last {
        None => true,
        Some(last) => last.cmp(key).is_lt(),
    }
}

/// A builder that was told the pairs.
fn told(alloc: Global, branch: Branch, pairs: &[(Vec<u8>, Vec<u8>)]) -> Result<Builder, NoMemory>
    requires { AreAscending (keys_of pairs.now) }
    ensures branch { IfOk result (λ b. b.branch ≡ branch) }
    ensures pairs { IfOk result (λ b. b.pairs ≡ map digest_entry (pairs_of pairs.now)) }
{
    let mut builder = Builder::new(alloc, branch);
    for (key, value) in pairs {
        builder.add(key.as_slice(), value_digest(value.as_slice()))?;
    }
    Ok(builder)
}

impl TableSource {
    ghost use Rattle.node_table.specs.TableWords.{IsTableOf};

    /// The source of the map with these pairs, which are to stand in the order of their keys, with no
    /// key longer than a key may be. Where they do not, there is none.
    pub fn of_pairs(
        alloc: Global,
        branch: Branch,
        pairs: Vec<(Vec<u8>, Vec<u8>)>,
    ) -> Result<Option<TableSource>, NoMemory>
        ensures found { IfOk result (λ s. IsSome s ↔ (AreAscending (keys_of pairs.items) × AreShort (keys_of pairs.items))) }
        ensures branch { IfOk result (λ s. IfSome s (λ s. s.branch ≡ branch)) }
        ensures map { IfOk result (λ s. IfSome s (λ s. (m : Map) → map_of.entries m ≡ pairs_of pairs.items → IsTableOf s m)) }
    {
        if !are_in_order(&pairs) {
            return Ok(None);
        }
        let builder = told(alloc, branch, &pairs)?;
        let (_root, rows) = table_of_builder(alloc, builder)?;
        Ok(Some(TableSource {
            branch,
            table: NodeTable::new(alloc, rows)?,
            pairs,
        }))
    }
}

/// Whether a key stands at or above `from`, or, where `past`, above it.
fn stands_ahead(past: bool, from: &[u8], key: &[u8]) -> bool
    ensures { result ≡ is_ahead past (bytes_cmp from.now key.now) }
{
    match from.cmp(key) {
        Ordering::Less => true,
        Ordering::Equal => !past,
        Ordering::Greater => false,
    }
}

/// The value of a key among pairs.
fn value_in(
    alloc: Global,
    pairs: &[(Vec<u8>, Vec<u8>)],
    key: &[u8],
) -> Result<Option<Vec<u8>>, NoMemory>
    ensures { IfOk result (λ v. option_map (λ v. v.items) v ≡ map_of.find bytes_cmp key.now (pairs_of pairs.now)) }
{
    for (at, value) in pairs {
        if key.cmp(at.as_slice()) == Ordering::Equal {
            return Ok(Some(Vec::from_slice(alloc, value.as_slice())?));
        }
    }
    Ok(None)
}

/// The first key ahead among pairs.
fn next_in(
    alloc: Global,
    pairs: &[(Vec<u8>, Vec<u8>)],
    from: &[u8],
    past: bool,
) -> Result<Option<Vec<u8>>, NoMemory>
    ensures { IfOk result (λ k. option_map (λ k. k.items) k ≡ next_key past from.now (keys_of pairs.now)) }
{
    for (key, _value) in pairs {
        if stands_ahead(past, from, key.as_slice()) {
            return Ok(Some(Vec::from_slice(alloc, key.as_slice())?));
        }
    }
    Ok(None)
}

impl NodeSource for TableSource {
    ghost use Rattle.node_table.specs.TableWords.{table_words, table_words-IsSource};

    ghost words = { table_words };

    fn root_key(&mut self, alloc: Global) -> Result<Option<Key>, SourceFault> {
        match self.table.root_key() {
            Some(key) => Ok(Some(key.copy(alloc)?)),
            None => Ok(None),
        }
    }

    fn node(&mut self, alloc: Global, key: &Key) -> Result<Option<Node>, SourceFault> {
        Ok(self.table.node(alloc, key)?)
    }

    fn shown(
        &mut self,
        alloc: Global,
        key: &Key,
        token: Option<u16>,
    ) -> Result<Option<ShownNode>, SourceFault> {
        Ok(self.table.shown(alloc, key, token)?)
    }

    fn value(&mut self, alloc: Global, key: &[u8]) -> Result<Option<Vec<u8>>, SourceFault> {
        Ok(value_in(alloc, self.pairs.as_slice(), key)?)
    }

    fn next(
        &mut self,
        alloc: Global,
        from: &[u8],
        past: bool,
    ) -> Result<Option<Vec<u8>>, SourceFault> {
        Ok(next_in(alloc, self.pairs.as_slice(), from, past)?)
    }

    ghost lawful = { table_words-IsSource };
}
