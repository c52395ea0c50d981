ghost use Rattle.std.specs.Prelude.{◌≡◌, ◌+◌, ◌*◌, ◌<◌, ◌≤◌, ℕ, List, ◌++◌, length, IfOk, OnOk, OnErr, [], ◌∷◌};
ghost use Rattle.std.specs.List.{AllByRecursion};
ghost use Rattle.std.specs.declared.cmp.Ordering.TheVariants.{Less};
ghost use Rattle.base_model.specs.Bytes.{bytes_cmp};
ghost use Rattle.trie_model.specs.Ids.{id};
ghost use Rattle.trie_model.specs.Strings.{strings};
ghost use Rattle.trie_model.specs.Laws.{AreStored};
ghost use Rattle.trie_model.specs.Maps.{Limits, Map, map_digests, map_items, root};
ghost use Rattle.trie_model.specs.Table.{items_table, table};
ghost use Rattle.bit_keys.specs.Branch.{width_of};
ghost use Rattle.map_root.specs.BuilderPairs.{pair_items, AreWithin};
ghost use Rattle.map_root.specs.Hashes.{GrewAtMost};

use crate::entry::Entry;
use crate::pass::pass;
use crate::sinks::{KeptNodes, NoNodes, NodeSink};
use bit_keys::{Branch, Id, Key};
use mdb_base::NoMemory;
use node_codec::Node;
use std::alloc::Global;
use std::marker::{Brand, Model};
use std::sync::ledger::{Blank, Ledger};
use trie_items::{Digest, Steps};

/// Makes the root of a map of which it is told the keys, in order, and the digests of the values.
#[derive(Drop)]
pub struct Builder {
    pub(crate) branch: Branch,
    pub(crate) entries: Vec<Entry>,
}

impl Model for Builder {
    ghost use Rattle.trie_model.specs.Bits.{IsRising};
    ghost use Rattle.map_root.specs.BuilderPairs.{Built};
    ghost use Rattle.map_root.specs.Entries.{keys_of, pairs_of, AreOfBytes, AreShortDigests};

    ghost Value = { Built };

    ghost view = { λ b. record { branch = b.branch; pairs = pairs_of b.entries.items } };

    ghost invariant = { λ b. IsRising (keys_of b.entries.items) × AreOfBytes b.entries.items × AreShortDigests b.entries.items };
}

impl Builder {
    /// A builder that was told nothing yet.
    pub fn new(alloc: Global, branch: Branch) -> Builder
        ensures branch { result.branch ≡ branch }
        ensures empty { result.pairs ≡ [] }
    {
        Builder {
            branch,
            entries: Vec::new(alloc),
        }
    }

    /// Adds a key that is above all so far, with the digest of its value.
    pub fn add(&mut self, key: &[u8], digest: Digest) -> Result<(), NoMemory>
        requires above { AllByRecursion (λ (e : List ℕ × List ℕ). bytes_cmp e.0 key.now ≡ Less) self.old.pairs }
        ensures branch { self.new.branch ≡ self.old.branch }
        ensures ok { OnOk result (self.new.pairs ≡ self.old.pairs ++ (key.now, digest) ∷ []) }
        ensures err { OnErr result (self.new ≡ self.old) }
    {
        let alloc = *self.entries.allocator();
        let Ok(key) = Key::from_bytes(alloc, key) else {
            return Err(NoMemory);
        };
        // That the digest is short is said of its bytes.
        let _bytes = digest.bytes();
        self.entries.push(Entry { key, digest })?;
        Ok(())
    }

    /// The root, and all nodes with their keys, in key order. A node is hashed once, and none is
    /// left out: `steps` counts as many nodes as there are hashed strings, and no more after want
    /// of memory.
    pub fn finish<L: Ledger>(
        self,
        alloc: Global,
        steps: &mut Steps<L>,
    ) -> Result<(Id, Vec<(Key, Node)>), NoMemory>
        ensures root { IfOk result (λ made. (m : Map) → map_digests m ≡ self.pairs → made.0 ≡ root (width_of self.branch) m) }
        ensures table { IfOk result (λ made. (m : Map) → map_digests m ≡ self.pairs → made.1.items ≡ table (width_of self.branch) m) }
        ensures id { IfOk result (λ made. made.0 ≡ id (width_of self.branch) (pair_items self.pairs)) }
        ensures nodes { IfOk result (λ made. made.1.items ≡ items_table (width_of self.branch) (pair_items self.pairs)) }
        ensures stored { IfOk result (λ made. (l : Limits) → AreWithin l self.pairs → AreStored l (width_of self.branch) made.1.items) }
        ensures cost { OnOk result ((m : Map) → map_digests m ≡ self.pairs → steps.new ≡ steps.old + length (strings (width_of self.branch) (map_items m))) }
        ensures cost_of_pairs { OnOk result (steps.new ≡ steps.old + length (strings (width_of self.branch) (pair_items self.pairs))) }
        ensures ticks { IfOk result (λ made. steps.new ≡ steps.old + length made.1.items) }
        ensures err { OnErr result (GrewAtMost (length (strings (width_of self.branch) (pair_items self.pairs))) steps.old steps.new) }
    {
        let mut kept = KeptNodes {
            last_first: Vec::new(alloc),
        };
        let id = pass_over(alloc, self, &mut kept, steps)?;
        let mut nodes = kept.last_first;
        nodes.reverse();
        Ok((id, nodes))
    }

    /// The root alone: no node is kept. `steps` counts as in `finish`.
    pub fn finish_root<L: Ledger>(self, alloc: Global, steps: &mut Steps<L>) -> Result<Id, NoMemory>
        ensures root { IfOk result (λ made. (m : Map) → map_digests m ≡ self.pairs → made ≡ root (width_of self.branch) m) }
        ensures id { IfOk result (λ made. made ≡ id (width_of self.branch) (pair_items self.pairs)) }
        ensures cost { OnOk result ((m : Map) → map_digests m ≡ self.pairs → steps.new ≡ steps.old + length (strings (width_of self.branch) (map_items m))) }
        ensures cost_of_pairs { OnOk result (steps.new ≡ steps.old + length (strings (width_of self.branch) (pair_items self.pairs))) }
        ensures err { OnErr result (GrewAtMost (length (strings (width_of self.branch) (pair_items self.pairs))) steps.old steps.new) }
    {
        pass_over(alloc, self, &mut NoNodes, steps)
    }
}

/// The ID of what a builder was told, and its table to the sink.
fn pass_over<K: NodeSink, L: Ledger>(
    alloc: Global,
    builder: Builder,
    sink: &mut K,
    steps: &mut Steps<L>,
) -> Result<Id, NoMemory>
    requires { K.holds sink.old [] }
    ensures id { IfOk result (λ made. made ≡ id (width_of builder.branch) (pair_items builder.pairs)) }
    ensures rows { OnOk result (K.holds sink.new (items_table (width_of builder.branch) (pair_items builder.pairs))) }
    ensures cost { OnOk result (steps.new ≡ steps.old + length (strings (width_of builder.branch) (pair_items builder.pairs))) }
    ensures ticks { OnOk result (steps.new ≡ steps.old + length (items_table (width_of builder.branch) (pair_items builder.pairs))) }
    ensures err { OnErr result (GrewAtMost (length (strings (width_of builder.branch) (pair_items builder.pairs))) steps.old steps.new) }
    ensures stored { (l : Limits) → AreWithin l builder.pairs → AreStored l (width_of builder.branch) (items_table (width_of builder.branch) (pair_items builder.pairs)) }
{
    pass(alloc, builder.branch, builder.entries, sink, steps)
}

fn counted<L: Ledger>(alloc: Global, builder: Builder, blank: Blank) -> Result<Id, NoMemory>
    requires name { blank.name ≡ L.name }
    requires parts { blank.parts ≡ L.parts }
    requires some { 0 < blank.parts }
    ensures root { IfOk result (λ made. (m : Map) → map_digests m ≡ builder.pairs → made ≡ root (width_of builder.branch) m) }
    ensures id { IfOk result (λ made. made ≡ id (width_of builder.branch) (pair_items builder.pairs)) }
{
    let mut steps = Steps::<L>::new(blank);
    builder.finish_root(alloc, &mut steps)
}

/// The root of what a builder was told, for a caller that counts no hashes.
pub fn root_of_builder(alloc: Global, builder: Builder) -> Result<Id, NoMemory>
    ensures root { IfOk result (λ made. (m : Map) → map_digests m ≡ builder.pairs → made ≡ root (width_of builder.branch) m) }
    ensures id { IfOk result (λ made. made ≡ id (width_of builder.branch) (pair_items builder.pairs)) }
{
    counted::<Brand>(alloc, builder, Blank::new(1))
}

fn counted_table<L: Ledger>(
    alloc: Global,
    builder: Builder,
    blank: Blank,
) -> Result<(Id, Vec<(Key, Node)>), NoMemory>
    requires name { blank.name ≡ L.name }
    requires parts { blank.parts ≡ L.parts }
    requires some { 0 < blank.parts }
    ensures root { IfOk result (λ made. (m : Map) → map_digests m ≡ builder.pairs → made.0 ≡ root (width_of builder.branch) m) }
    ensures table { IfOk result (λ made. (m : Map) → map_digests m ≡ builder.pairs → made.1.items ≡ table (width_of builder.branch) m) }
    ensures id { IfOk result (λ made. made.0 ≡ id (width_of builder.branch) (pair_items builder.pairs)) }
    ensures nodes { IfOk result (λ made. made.1.items ≡ items_table (width_of builder.branch) (pair_items builder.pairs)) }
    ensures stored { IfOk result (λ made. (l : Limits) → AreWithin l builder.pairs → AreStored l (width_of builder.branch) made.1.items) }
{
    let mut steps = Steps::<L>::new(blank);
    builder.finish(alloc, &mut steps)
}

/// The root and the nodes of what a builder was told, for a caller that counts no hashes.
pub fn table_of_builder(alloc: Global, builder: Builder) -> Result<(Id, Vec<(Key, Node)>), NoMemory>
    ensures root { IfOk result (λ made. (m : Map) → map_digests m ≡ builder.pairs → made.0 ≡ root (width_of builder.branch) m) }
    ensures table { IfOk result (λ made. (m : Map) → map_digests m ≡ builder.pairs → made.1.items ≡ table (width_of builder.branch) m) }
    ensures id { IfOk result (λ made. made.0 ≡ id (width_of builder.branch) (pair_items builder.pairs)) }
    ensures nodes { IfOk result (λ made. made.1.items ≡ items_table (width_of builder.branch) (pair_items builder.pairs)) }
    ensures stored { IfOk result (λ made. (l : Limits) → AreWithin l builder.pairs → AreStored l (width_of builder.branch) made.1.items) }
{
    counted_table::<Brand>(alloc, builder, Blank::new(1))
}
