use bit_keys::Key;
use node_codec::Digest;
use std::marker::Model;
use trie_items::ChildId;

/// A node as a path shows it: all that is hashed of it.
#[derive(Debug, Drop)]
pub struct ProofNode {
    pub key: Key,
    /// The digest of the value at the node's key, where there is one.
    pub digest: Option<Digest>,
    /// In the order of their indices.
    pub children: Vec<ChildId>,
}

impl Model for ProofNode {
    ghost use Rattle.proof_model.specs.Paths.{ProofNode as ShownNode};
    ghost use Rattle.trie_items.specs.Children.{children_of};

    ghost Value = { ShownNode };

    ghost view = { λ n. record { key = n.key; digest = n.digest; children = children_of n.children.items } };
}
