ghost use Rattle.std.specs.Prelude.{◌≡◌, option_map, IfOk};
ghost use Rattle.std.specs.FinMap as map_of;
ghost use Rattle.trie_model.specs.Maps.{Map};
ghost use Rattle.trie_model.specs.Table.{table};
ghost use Rattle.trie_items.specs.Shown.{shown_of};
ghost use Rattle.trie_items.specs.Sources.{SourceWords, IsSource, Answers, first_key, row_of, next_key};

use crate::shown::ShownNode;
use crate::source_fault::SourceFault;
use bit_keys::Key;
use node_codec::Node;
use std::alloc::Global;

/// The nodes of a map's trie, and the pairs of the map.
///
/// A source tells its map or it doesn't. What it doesn't tell, its calls say nothing of, but for its
/// keys: those it has in any case. No call changes the map or the keys.
pub trait NodeSource {
    /// What is known of it.
    ghost words: { SourceWords Self };

    /// The key of the root node, and none in the empty map.
    fn root_key(&mut self, alloc: Global) -> Result<Option<Key>, SourceFault>
        ensures key { IfOk result (λ k. (m : Map) → words.told self.old m → k ≡ first_key (table (words.width self.old) m)) }
        ensures answers { Answers words self.old self.new result };

    /// The node at a key, where there is one.
    fn node(&mut self, alloc: Global, key: &Key) -> Result<Option<Node>, SourceFault>
        ensures node { IfOk result (λ n. (m : Map) → words.told self.old m → n ≡ row_of key.now (table (words.width self.old) m)) }
        ensures answers { Answers words self.old self.new result };

    /// What a path shows of the node at a key, where there is one, with the rest of the child at a token.
    ///
    /// It is made of `node`, unless the source has a way that takes fewer copies.
    fn shown(
        &mut self,
        alloc: Global,
        key: &Key,
        token: Option<u16>,
    ) -> Result<Option<ShownNode>, SourceFault>
        ensures shown { IfOk result (λ n. (m : Map) → words.told self.old m → n ≡ option_map (shown_of token) (row_of key.now (table (words.width self.old) m))) }
        ensures answers { Answers words self.old self.new result }
    {
        match self.node(alloc, key)? {
            Some(node) => Ok(Some(ShownNode::of_node(alloc, node, token)?)),
            None => Ok(None),
        }
    }

    /// The value of a key, where it has one.
    fn value(&mut self, alloc: Global, key: &[u8]) -> Result<Option<Vec<u8>>, SourceFault>
        ensures value { IfOk result (λ v. (m : Map) → words.told self.old m → option_map (λ v. v.items) v ≡ map_of.get m key.now) }
        ensures answers { Answers words self.old self.new result };

    /// The least key at or above `from`, or, where `past`, above it.
    fn next(
        &mut self,
        alloc: Global,
        from: &[u8],
        past: bool,
    ) -> Result<Option<Vec<u8>>, SourceFault>
        ensures key { IfOk result (λ k. option_map (λ v. v.items) k ≡ next_key past from.now (words.keys self.old)) }
        ensures answers { Answers words self.old self.new result };

    ghost lawful: { IsSource words };
}
