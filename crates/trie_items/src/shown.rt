// A node as a path shows it.
ghost use Rattle.std.specs.Prelude.{◌≡◌, IfOk, map};
ghost use Rattle.trie_model.specs.Table.{hashed_child};
ghost use Rattle.node_codec.specs.StoredNodes.{stored_children};
ghost use Rattle.trie_items.specs.Children.{children_of};
ghost use Rattle.trie_items.specs.Shown.{child_at, child_named, rest_of, shown_of};

use crate::child::ChildId;
use bit_keys::Key;
use mdb_base::NoMemory;
use node_codec::{Child, Digest, Node};
use std::alloc::Global;
use std::marker::Model;

/// What a path shows of a node, whose key is known: all that is hashed of it. And what a way down to a key needs
/// besides: the rest of one child.
#[derive(Debug, Drop)]
pub struct ShownNode {
    /// The digest of the value at the node's key, where there is one.
    pub digest: Option<Digest>,
    /// In the order of their indices.
    pub children: Vec<ChildId>,
    /// The rest of the child at the token that was asked for, where there is one.
    pub rest: Option<Key>,
}

impl Model for ShownNode {
    ghost use Rattle.trie_items.specs.Children.{children_of};
    ghost use Rattle.trie_items.specs.Shown.{Shown};

    ghost Value = { Shown };

    ghost view = { λ n. record { digest = n.digest; children = children_of n.children.items; rest = n.rest } };
}

/// The children as their node's string has them.
pub fn child_ids(alloc: Global, children: &[Child]) -> Result<Vec<ChildId>, NoMemory>
    ensures { IfOk result (λ made. children_of made.items ≡ map hashed_child (stored_children children.now)) }
{
    let mut made = Vec::with_capacity(alloc, children.len())?;
    for child in children {
        made.push(ChildId {
            index: child.index,
            id: child.id,
        })?;
    }
    Ok(made)
}

/// The rest of the child at a token.
fn rest_at(alloc: Global, children: &[Child], token: u16) -> Result<Option<Key>, NoMemory>
    ensures { IfOk result (λ rest. rest ≡ rest_of (child_at token (stored_children children.now))) }
{
    for child in children {
        if child.index == token {
            return match child.rest.copy(alloc) {
                Ok(rest) => Ok(Some(rest)),
                Err(_) => Err(NoMemory),
            };
        }
    }
    Ok(None)
}

impl ShownNode {
    /// What is shown of a node, with the rest of the child at a token, where one is asked for.
    pub fn of_node(alloc: Global, node: Node, token: Option<u16>) -> Result<ShownNode, NoMemory>
        ensures { IfOk result (λ shown. shown ≡ shown_of token node) }
    {
        let rest = match token {
            Some(token) => rest_at(alloc, node.children.as_slice(), token)?,
            None => None,
        };
        let children = child_ids(alloc, node.children.as_slice())?;
        Ok(ShownNode {
            digest: node.digest,
            children,
            rest,
        })
    }
}
