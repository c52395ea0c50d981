use bit_keys::Key;
use trie_items::Digest;

/// A key of the map, and the digest of its value.
#[derive(Drop)]
pub struct Entry {
    pub key: Key,
    pub digest: Digest,
}
