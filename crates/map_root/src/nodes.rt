use bit_keys::Key;
use trie_items::Digest;

/// A node whose first child is still to come.
#[derive(Drop)]
pub struct OpenNode<C> {
    /// The length of its key.
    pub bits: u64,
    /// Its children so far, the last one first.
    pub children: Vec<C>,
}

/// A node with all its children.
#[derive(Drop)]
pub struct ClosedNode<C> {
    pub key: Key,
    pub digest: Option<Digest>,
    pub children: Vec<C>,
}
