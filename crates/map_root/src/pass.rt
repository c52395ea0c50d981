ghost use Rattle.std.specs.Prelude.{◌≡◌, ◌+◌, ◌*◌, ◌<◌, ◌≤◌, ℕ, List, [], ◌∷◌, length, take, map, IfOk, OnOk, OnErr, IfSome, IfNone, Some, None};
ghost use Rattle.std.specs.declared.cmp.Ordering.TheVariants.{Less};
ghost use Rattle.trie_model.specs.Bits.{IsRising, key_cmp};
ghost use Rattle.trie_model.specs.Ids.{id};
ghost use Rattle.trie_model.specs.Table.{Row, node_id as node_hash, items_table};
ghost use Rattle.bit_keys.specs.Branch.{width_of};
ghost use Rattle.map_root.specs.Entries.{keys_of, items_of, AreWhole};
ghost use Rattle.map_root.specs.PassState.{PassState, Unfinished, child_under as child_at, parent as parent_of, climb_from, settle as settled, lay as laid, open_at, IsBelow};
ghost use Rattle.map_root.specs.KeptNodes.{open_node as seen, above_of, kept_open, IsRow, Stands, StandsNested};
ghost use Rattle.map_root.specs.Hashes.{HashedAll, HashedAtMost, GrewAtMost};

use crate::entry::Entry;
use crate::nodes::{ClosedNode, OpenNode};
use crate::sinks::NodeSink;
use bit_keys::{Branch, Id};
use mdb_base::NoMemory;
use std::alloc::Global;
use std::sync::ledger::Ledger;
use trie_items::Steps;

/// The child that a node is of the node at its key's first bits.
fn child_under<K: NodeSink, L: Ledger>(
    alloc: Global,
    branch: Branch,
    bits: u64,
    node: &ClosedNode<K::Child>,
    steps: &mut Steps<L>,
) -> Result<K::Child, NoMemory>
    requires inside { bits + width_of branch ≤ length node.now.key }
    requires whole { (n : ℕ) × (bits ≡ width_of branch * n) }
    ensures child { IfOk result (λ made. (r : Row) → IsRow K.kept node.now r → made ≡ K.kept (child_at (width_of branch) bits r)) }
    ensures cost { OnOk result (steps.new ≡ steps.old + 1) }
    ensures err { OnErr result (GrewAtMost 1 steps.old steps.new) }
{
    // That the key has these bits says that their number fits.
    let _bits = node.key.bits();
    let id = K::node_id(alloc, node, steps)?;
    let width = branch.width() as u64;
    let index = node.key.token(branch, bits / width);
    K::child(alloc, node, index, bits + width, id)
}

/// The open node above a node, with that node as its first child.
fn parent<K: NodeSink, L: Ledger>(
    alloc: Global,
    branch: Branch,
    node: &ClosedNode<K::Child>,
    upper: OpenNode<K::Child>,
    steps: &mut Steps<L>,
) -> Result<ClosedNode<K::Child>, NoMemory>
    requires inside { upper.bits + width_of branch ≤ length node.now.key }
    requires whole { (n : ℕ) × (upper.bits ≡ width_of branch * n) }
    ensures node { IfOk result (λ made. (r : Row) (o : Unfinished) → IsRow K.kept node.now r → seen upper ≡ kept_open K.kept o → IsRow K.kept made (parent_of (width_of branch) r o)) }
    ensures cost { OnOk result (steps.new ≡ steps.old + 1) }
    ensures err { OnErr result (GrewAtMost 1 steps.old steps.new) }
{
    let Ok(key) = node.key.first(alloc, upper.bits) else {
        return Err(NoMemory);
    };
    let child = child_under::<K, L>(alloc, branch, upper.bits, node, steps)?;
    let mut children = upper.children;
    children.push(child)?;
    children.reverse();
    Ok(ClosedNode {
        key,
        digest: None,
        children,
    })
}

/// Takes the deepest open node, where its key has at least this many bits.
fn take_open<C: Drop>(above: &mut Vec<OpenNode<C>>, least: u64) -> Option<OpenNode<C>>
    ensures some { IfSome result (λ o. (above_of above.old.items ≡ seen o ∷ above_of above.new.items) × (least ≤ o.bits)) }
    ensures none { IfNone result ((above.new ≡ above.old) × IsBelow least (above_of above.old.items)) }
{
    let Some(last) = above.as_slice().last() else {
        return None;
    };
    if last.bits < least {
        return None;
    }
    above.pop()
}

/// Gives each open node of at least so many bits its first child, and the node in hand to the sink.
fn climb<K: NodeSink, L: Ledger>(
    alloc: Global,
    branch: Branch,
    low: ClosedNode<K::Child>,
    above: &mut Vec<OpenNode<K::Child>>,
    least: u64,
    sink: &mut K,
    steps: &mut Steps<L>,
) -> Result<ClosedNode<K::Child>, NoMemory>
    requires { StandsNested K.kept K.holds (width_of branch) low above.old.items sink.old }
    ensures state { IfOk result (λ made. (y : PassState) → Stands K.kept K.holds low above.old.items sink.old y → Stands K.kept K.holds made above.new.items sink.new (climb_from (width_of branch) least y)) }
    ensures cost { OnOk result ((y : PassState) → Stands K.kept K.holds low above.old.items sink.old y → HashedAll steps.old steps.new y (climb_from (width_of branch) least y)) }
    ensures err { OnErr result ((y : PassState) → Stands K.kept K.holds low above.old.items sink.old y → HashedAtMost steps.old steps.new y (climb_from (width_of branch) least y)) }
{
    let mut low = low;
    while let Some(next) = take_open(above, least) {
        let node = low;
        low = parent::<K, L>(alloc, branch, &node, next, steps)?;
        sink.take(node)?;
    }
    Ok(low)
}

/// The open node of this many bits: the deepest one, where it has as many, else a new one.
fn open_node<C: Drop>(alloc: Global, above: &mut Vec<OpenNode<C>>, bits: u64) -> OpenNode<C>
    ensures node { seen result ≡ (open_at bits (above_of above.old.items)).0 }
    ensures above { above_of above.new.items ≡ (open_at bits (above_of above.old.items)).1 }
{
    if let Some(last) = take_open(above, bits) {
        return last;
    }
    OpenNode {
        bits,
        children: Vec::new(alloc),
    }
}

/// The entry's node is the one in hand, and the open node goes back, unless the entry's key is its own.
fn settle<K: NodeSink>(
    alloc: Global,
    entry: Entry,
    child: K::Child,
    node: OpenNode<K::Child>,
    above: &mut Vec<OpenNode<K::Child>>,
) -> Result<ClosedNode<K::Child>, NoMemory>
    ensures { IfOk result (λ made. (w : ℕ) (r : Row) (o : Unfinished) (os : List Unfinished) (rows : List Row) → child ≡ K.kept (child_at w o.0 r) → seen node ≡ kept_open K.kept o → above_of above.old.items ≡ map (kept_open K.kept) os → IsRow K.kept made (settled w entry r o os rows).low × (above_of above.new.items ≡ map (kept_open K.kept) (settled w entry r o os rows).above)) }
{
    let mut node = node;
    node.children.push(child)?;
    if entry.key.bits() == node.bits {
        let mut children = node.children;
        children.reverse();
        return Ok(ClosedNode {
            key: entry.key,
            digest: Some(entry.digest),
            children,
        });
    }
    above.push(node)?;
    Ok(leaf(alloc, entry))
}

/// The node of an entry without children.
fn leaf<C: Drop>(alloc: Global, entry: Entry) -> ClosedNode<C>
    ensures key { result.key ≡ entry.key }
    ensures digest { result.digest ≡ Some entry.digest }
    ensures children { result.children.items ≡ [] }
{
    ClosedNode {
        key: entry.key,
        digest: Some(entry.digest),
        children: Vec::new(alloc),
    }
}

/// Lays one more entry in front: the nodes that are not above it are finished.
fn lay<K: NodeSink, L: Ledger>(
    alloc: Global,
    branch: Branch,
    entry: Entry,
    low: ClosedNode<K::Child>,
    above: &mut Vec<OpenNode<K::Child>>,
    sink: &mut K,
    steps: &mut Steps<L>,
) -> Result<ClosedNode<K::Child>, NoMemory>
    requires stands { StandsNested K.kept K.holds (width_of branch) low above.old.items sink.old }
    requires less { key_cmp entry.key low.key ≡ Less }
    requires whole { ((m : ℕ) × (length entry.key ≡ width_of branch * m)) × ((n : ℕ) × (length low.key ≡ width_of branch * n)) }
    ensures state { IfOk result (λ made. (y : PassState) → Stands K.kept K.holds low above.old.items sink.old y → Stands K.kept K.holds made above.new.items sink.new (laid (width_of branch) entry y)) }
    ensures cost { OnOk result ((y : PassState) → Stands K.kept K.holds low above.old.items sink.old y → HashedAll steps.old steps.new y (laid (width_of branch) entry y)) }
    ensures err { OnErr result ((y : PassState) → Stands K.kept K.holds low above.old.items sink.old y → HashedAtMost steps.old steps.new y (laid (width_of branch) entry y)) }
{
    // That the key has these bits says that one more than are shared fit.
    let _bits = low.key.bits();
    let bits = entry.key.common(&low.key, branch);
    let node = climb(alloc, branch, low, above, bits + 1, sink, steps)?;
    let upper = open_node(alloc, above, bits);
    let child = child_under::<K, L>(alloc, branch, upper.bits, &node, steps)?;
    sink.take(node)?;
    settle::<K>(alloc, entry, child, upper, above)
}

/// The ID of the items of these entries, and their table to the sink. Each node is hashed once.
pub fn pass<K: NodeSink, L: Ledger>(
    alloc: Global,
    branch: Branch,
    entries: Vec<Entry>,
    sink: &mut K,
    steps: &mut Steps<L>,
) -> Result<Id, NoMemory>
    requires rises { IsRising (keys_of entries.items) }
    requires whole { AreWhole (width_of branch) entries.items }
    requires empty { K.holds sink.old [] }
    ensures id { IfOk result (λ made. made ≡ id (width_of branch) (items_of entries.items)) }
    ensures rows { OnOk result (K.holds sink.new (items_table (width_of branch) (items_of entries.items))) }
    ensures cost { OnOk result (steps.new ≡ steps.old + length (items_table (width_of branch) (items_of entries.items))) }
    ensures err { OnErr result (GrewAtMost (length (items_table (width_of branch) (items_of entries.items))) steps.old steps.new) }
{
    let mut rest = entries;
    let Some(last) = rest.pop() else {
        return Ok([0; 32]);
    };
    let mut low = leaf(alloc, last);
    let mut above = Vec::new(alloc);
    while let Some(entry) = rest.pop() {
        low = lay(alloc, branch, entry, low, &mut above, sink, steps)?;
    }
    let node = climb(alloc, branch, low, &mut above, 0, sink, steps)?;
    let id = K::node_id(alloc, &node, steps)?;
    sink.take(node)?;
    Ok(id)
}
