ghost use Rattle.std.specs.Prelude.{◌≡◌, ◌+◌, ℕ, Some, length, map, option_map, IfOk, IfSome, OnOk, OnErr};
ghost use Rattle.std.specs.Option.{option_copied};
ghost use Rattle.trie_model.specs.Bits.{IsRising};
ghost use Rattle.trie_model.specs.Ids.{id};
ghost use Rattle.trie_model.specs.Laws.{AreStored};
ghost use Rattle.trie_model.specs.Maps.{Limits, Map, map_digests, root};
ghost use Rattle.trie_model.specs.Strings.{strings};
ghost use Rattle.trie_model.specs.Table.{items_table, table};
ghost use Rattle.bit_keys.specs.Branch.{width_of};
ghost use Rattle.map_root.specs.BuilderPairs.{pair_items, AreWithin};
ghost use Rattle.map_root.specs.Hashes.{GrewAtMost};
ghost use Rattle.trie_items.specs.Shown.{shown_of};
ghost use Rattle.trie_items.specs.Sources.{first_key, row_of};
ghost use Rattle.node_table.specs.Rows.{row_key};

use crate::kept::KeptNode;
use crate::sizes::sizes_of;
use bit_keys::{Id, Key};
use map_root::Builder;
use mdb_base::NoMemory;
use node_codec::Node;
use std::alloc::Global;
use std::marker::Model;
use std::sync::ledger::Ledger;
use trie_items::{ShownNode, Steps};

/// The nodes of a trie and their keys, in the order of the keys.
#[derive(Drop)]
pub struct NodeTable {
    rows: Vec<(Key, KeptNode)>,
    /// The row to which the last answer leads. It is looked at before the rows are searched.
    next: u32,
}

impl Model for NodeTable {
    ghost use Rattle.std.specs.Prelude.{List, map};
    ghost use Rattle.trie_model.specs.Bits.{IsRising};
    ghost use Rattle.trie_model.specs.Table.{Row};
    ghost use Rattle.node_table.specs.Rows.{row_key};

    ghost Value = { List Row };

    ghost view = { λ t. t.rows.items };

    ghost invariant = { λ t. IsRising (map row_key t.rows.items) };
}

/// The rows as the table keeps them.
fn kept_rows(
    alloc: Global,
    rows: Vec<(Key, Node)>,
    sizes: &[u32],
) -> Result<Vec<(Key, KeptNode)>, NoMemory>
    ensures { IfOk result (λ made. made.items ≡ rows.items) }
{
    let mut made = Vec::with_capacity(alloc, rows.len())?;
    let mut first = 0u32;
    for (key, node) in rows {
        first = first.saturating_add(1);
        made.push((key, KeptNode::of_node(alloc, node, first, sizes)?))?;
    }
    Ok(made)
}

impl NodeTable {
    /// A table of nodes with keys that rise, as those are that `Builder::finish` gives.
    ///
    /// Each node is told where the rows of its children stand, so that a way down from the root takes no search.
    pub fn new(alloc: Global, rows: Vec<(Key, Node)>) -> Result<NodeTable, NoMemory>
        requires { IsRising (map row_key rows.items) }
        ensures { IfOk result (λ table. table ≡ rows.items) }
    {
        let sizes = sizes_of(alloc, rows.as_slice())?;
        let rows = kept_rows(alloc, rows, sizes.as_slice())?;
        Ok(NodeTable { rows, next: 0 })
    }

    /// The root and the table of what a builder was told. `steps` counts as in `Builder::finish`.
    pub fn of_builder<L: Ledger>(
        alloc: Global,
        builder: Builder,
        steps: &mut Steps<L>,
    ) -> Result<(Id, NodeTable), NoMemory>
        ensures root { IfOk result (λ made. (m : Map) → map_digests m ≡ builder.pairs → made.0 ≡ root (width_of builder.branch) m) }
        ensures table { IfOk result (λ made. (m : Map) → map_digests m ≡ builder.pairs → made.1 ≡ table (width_of builder.branch) m) }
        ensures id { IfOk result (λ made. made.0 ≡ id (width_of builder.branch) (pair_items builder.pairs)) }
        ensures nodes { IfOk result (λ made. made.1 ≡ items_table (width_of builder.branch) (pair_items builder.pairs)) }
        ensures stored { IfOk result (λ made. (l : Limits) → AreWithin l builder.pairs → AreStored l (width_of builder.branch) made.1) }
        ensures cost { OnOk result (steps.new ≡ steps.old + length (strings (width_of builder.branch) (pair_items builder.pairs))) }
        ensures err { OnErr result (GrewAtMost (length (strings (width_of builder.branch) (pair_items builder.pairs))) steps.old steps.new) }
    {
        let (root, rows) = builder.finish(alloc, steps)?;
        Ok((root, NodeTable::new(alloc, rows)?))
    }

    /// The key of the root node, where there is one.
    pub fn root_key(&self) -> Option<&Key>
        ensures { option_copied result ≡ first_key self.now }
    {
        match self.rows.as_slice() {
            [] => None,
            [(key, _node), ..] => Some(key),
        }
    }

    /// The node at a key, where the last answer leads to its row.
    fn led(&self, key: &Key) -> Option<&KeptNode>
        ensures { IfSome result (λ node. row_of key.now self.now ≡ Some node.now) }
    {
        let at = self.next as usize;
        if at < self.rows.len() && self.rows[at].0 == *key {
            return Some(&self.rows[at].1);
        }
        None
    }

    /// The node at a key, where there is one, by a search of the rows.
    fn searched(&self, key: &Key) -> Option<&KeptNode>
        ensures { option_copied result ≡ row_of key.now self.now }
    {
        match self.rows.binary_search_by(|row| row.0.compare(key)) {
            Ok(at) => Some(&self.rows[at].1),
            Err(_) => None,
        }
    }

    fn found(&self, key: &Key) -> Option<&KeptNode>
        ensures { option_copied result ≡ row_of key.now self.now }
    {
        match self.led(key) {
            Some(node) => Some(node),
            None => self.searched(key),
        }
    }

    /// The node at a key, where there is one.
    pub fn node(&self, alloc: Global, key: &Key) -> Result<Option<Node>, NoMemory>
        ensures { IfOk result (λ node. node ≡ row_of key.now self.now) }
    {
        match self.found(key) {
            Some(node) => Ok(Some(node.node(alloc)?)),
            None => Ok(None),
        }
    }

    /// What a path shows of the node at a key, where there is one, with the rest of the child at a token. The next
    /// call finds that child, and behind the last node of a way the root, without a search.
    pub fn shown(
        &mut self,
        alloc: Global,
        key: &Key,
        token: Option<u16>,
    ) -> Result<Option<ShownNode>, NoMemory>
        ensures shown { IfOk result (λ shown. shown ≡ option_map (shown_of token) (row_of key.now self.old)) }
        ensures stays { self.new ≡ self.old }
    {
        let Some(node) = self.found(key) else {
            return Ok(None);
        };
        let (shown, next) = node.shown(alloc, token)?;
        self.next = next;
        Ok(Some(shown))
    }
}
