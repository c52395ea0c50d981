ghost use Rattle.std.specs.Prelude.{◌≡◌, IfOk};

use crate::digest::Digest;
use bit_keys::{Id, Key};
use mdb_base::NoMemory;
use std::alloc::Global;
use std::marker::Model;

/// A child of a node.
#[derive(Debug, Drop)]
pub struct Child {
    /// The token that leads to the child.
    pub index: u16,
    /// The child's key behind the node's key and that token.
    pub rest: Key,
    pub id: Id,
    pub has_value: bool,
}

/// A node as it is stored: all but its key.
#[derive(Debug, Drop)]
pub struct Node {
    /// The digest of the value at the node's key, where there is one.
    pub digest: Option<Digest>,
    /// In the order of their indices.
    pub children: Vec<Child>,
}

impl Model for Node {
    ghost use Rattle.trie_model.specs.StoredNode.{StoredNode};
    ghost use Rattle.node_codec.specs.StoredNodes.{stored_children};

    ghost Value = { StoredNode };

    ghost view = { λ n. record { digest = n.digest; children = stored_children n.children.items } };
}

impl Child {
    /// An equal child.
    pub fn copy(&self, alloc: Global) -> Result<Child, NoMemory>
        ensures { IfOk result (λ c. c ≡ self.now) }
    {
        Ok(Child {
            index: self.index,
            rest: copy_key(alloc, &self.rest)?,
            id: self.id,
            has_value: self.has_value,
        })
    }
}

fn copy_key(alloc: Global, key: &Key) -> Result<Key, NoMemory>
    ensures { IfOk result (λ k. k ≡ key.now) }
{
    key.copy(alloc).map_err(|_| NoMemory)
}

/// Copies of these children.
fn copies(alloc: Global, children: &[Child]) -> Result<Vec<Child>, NoMemory>
    ensures { IfOk result (λ made. made.items ≡ children.now) }
{
    let mut made = Vec::with_capacity(alloc, children.len())?;
    for child in children {
        made.push(child.copy(alloc)?)?;
    }
    Ok(made)
}

impl Node {
    /// An equal node.
    pub fn copy(&self, alloc: Global) -> Result<Node, NoMemory>
        ensures { IfOk result (λ n. n ≡ self.now) }
    {
        let digest = match &self.digest {
            Some(digest) => Some(digest.copy()),
            None => None,
        };
        Ok(Node {
            digest,
            children: copies(alloc, self.children.as_slice())?,
        })
    }
}
