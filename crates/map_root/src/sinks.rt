ghost use Rattle.std.specs.Prelude.{◌≡◌, ◌+◌, ◌≤◌, List, ◌∷◌, OnOk, OnErr, IfOk, reverse, length, drop};
ghost use Rattle.trie_model.specs.StoredNode.{StoredChild};
ghost use Rattle.trie_model.specs.Table.{Row, is_some, node_id as node_hash};
ghost use Rattle.map_root.specs.KeptNodes.{IsRow, stored, hashed};

use crate::nodes::ClosedNode;
use bit_keys::{Id, Key};
use mdb_base::NoMemory;
use node_codec::{Child, Node};
use std::alloc::Global;
use std::sync::ledger::Ledger;
use trie_items::{ChildId, Steps, child_ids, id_of};

/// Where finished nodes go, the one with the last key first, and what it wants to be kept of children.
pub trait NodeSink {
    type Child: Drop;

    /// What is kept of a child.
    ghost kept: { StoredChild → Self.Child };

    /// Whether these may be the nodes that came, in the order of their keys.
    ghost holds: { Self → List Row → Type 0 };

    /// What is kept of a node as a child, whose rest is its key behind so many bits.
    fn child(
        alloc: Global,
        node: &ClosedNode<Self::Child>,
        index: u16,
        front: u64,
        id: Id,
    ) -> Result<Self::Child, NoMemory>
        requires { front ≤ length node.now.key }
        ensures { IfOk result (λ made. made ≡ kept (record { index = index; rest = drop front node.now.key; id = id; has_value = is_some node.now.digest })) };

    /// The ID of a node.
    fn node_id<L: Ledger>(
        alloc: Global,
        node: &ClosedNode<Self::Child>,
        steps: &mut Steps<L>,
    ) -> Result<Id, NoMemory>
        ensures id { IfOk result (λ made. (r : Row) → IsRow kept node.now r → made ≡ node_hash r) }
        ensures cost { OnOk result (steps.new ≡ steps.old + 1) }
        ensures err { OnErr result (steps.new ≡ steps.old) };

    fn take(&mut self, node: ClosedNode<Self::Child>) -> Result<(), NoMemory>
        ensures { OnOk result ((r : Row) (rows : List Row) → IsRow kept node r → holds self.old rows → holds self.new (r ∷ rows)) };
}

/// Keeps all nodes.
#[derive(Drop)]
pub struct KeptNodes {
    pub last_first: Vec<(Key, Node)>,
}

impl NodeSink for KeptNodes {
    type Child = Child;

    ghost kept = { stored };

    ghost holds = { λ s rows. reverse s.last_first.items ≡ rows };

    fn child(
        alloc: Global,
        node: &ClosedNode<Child>,
        index: u16,
        front: u64,
        id: Id,
    ) -> Result<Child, NoMemory> {
        let Ok(rest) = node.key.after(alloc, front) else {
            return Err(NoMemory);
        };
        Ok(Child {
            index,
            rest,
            id,
            has_value: node.digest.is_some(),
        })
    }

    fn node_id<L: Ledger>(
        alloc: Global,
        node: &ClosedNode<Child>,
        steps: &mut Steps<L>,
    ) -> Result<Id, NoMemory> {
        let children = child_ids(alloc, node.children.as_slice())?;
        Ok(id_of(&node.key, node.digest.as_ref(), children.as_slice(), steps))
    }

    fn take(&mut self, node: ClosedNode<Child>) -> Result<(), NoMemory>
        ensures { OnOk result ((r : Row) (rows : List Row) → IsRow stored node r → reverse self.old.last_first.items ≡ rows → reverse self.new.last_first.items ≡ r ∷ rows) }
    {
        let kept = Node {
            digest: node.digest,
            children: node.children,
        };
        self.last_first.push((node.key, kept))?;
        Ok(())
    }
}

/// Keeps no node, for a caller that wants the root alone.
#[derive(Drop)]
pub struct NoNodes;

impl NodeSink for NoNodes {
    type Child = ChildId;

    ghost kept = { hashed };

    ghost holds = { λ s rows. Unit {0} };

    fn child(
        _alloc: Global,
        _node: &ClosedNode<ChildId>,
        index: u16,
        _front: u64,
        id: Id,
    ) -> Result<ChildId, NoMemory> {
        Ok(ChildId { index, id })
    }

    fn node_id<L: Ledger>(
        _alloc: Global,
        node: &ClosedNode<ChildId>,
        steps: &mut Steps<L>,
    ) -> Result<Id, NoMemory> {
        Ok(id_of(
            &node.key,
            node.digest.as_ref(),
            node.children.as_slice(),
            steps,
        ))
    }

    fn take(&mut self, node: ClosedNode<ChildId>) -> Result<(), NoMemory>
        ensures { OnOk result ((r : Row) (rows : List Row) → IsRow hashed node r → Unit {0} → Unit {0}) }
    {
        let _node = node;
        Ok(())
    }
}
