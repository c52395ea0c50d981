ghost use Rattle.std.specs.Prelude.{◌≡◌, ◌<◌, ◌≤◌, length};
ghost use Rattle.trie_model.specs.Hashing.{value_digest as digest_of_value};

use node_codec::Digest;
use sha2::{Digest as Hasher, Sha256};

/// What is hashed in the place of a value: the value itself below 32 bytes, else its SHA-256.
#[tactic(auto, unfolding(trie_model::specs::Hashing::value_digest))]
pub fn value_digest(value: &[u8]) -> Digest
    ensures { result ≡ digest_of_value value.now }
{
    if value.len() < 32 {
        return Digest::new(value).unwrap();
    }
    Digest::new(&Sha256::digest(value)).unwrap()
}
