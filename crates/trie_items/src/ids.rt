ghost use Rattle.std.specs.Prelude.{◌≡◌, ◌+◌, ◌*◌, ◌<◌, ◌≤◌, ℕ, List, ◌++◌, length, map, flat_map};
ghost use Rattle.std.specs.Option.{option_copied};
ghost use Rattle.sha2.specs.Sha256.{sha256};
ghost use Rattle.sha2.specs.Hashers.{Holds256};
ghost use Rattle.base_model.specs.Uvarint.{uvarint};
ghost use Rattle.trie_model.specs.Hashing.{digest_form, key_form, child_form, hashed_string};
ghost use Rattle.trie_items.specs.Children.{children_of};

use crate::child::ChildId;
use crate::steps::Steps;
use bit_keys::{Id, Key};
use node_codec::Digest;
use sha2::{Digest as Hasher, Sha256};
use std::sync::ledger::Ledger;

/// Feeds the groups of a number one by one.
fn hash_groups(hasher: &mut Sha256, number: u64)
    ensures { (m : List ℕ) → Holds256 hasher.old m → Holds256 hasher.new (m ++ uvarint number) }
{
    let mut rest = number;
    while rest >= 128 {
        hasher.update(&[128 + (rest % 128) as u8]);
        rest /= 128;
    }
    hasher.update(&[rest as u8]);
}

/// Feeds a number, in one piece where it has two groups at most.
fn hash_uvarint(hasher: &mut Sha256, number: u64)
    ensures { (m : List ℕ) → Holds256 hasher.old m → Holds256 hasher.new (m ++ uvarint number) }
{
    if number < 128 {
        hasher.update(&[number as u8]);
    } else if number < 128 * 128 {
        hasher.update(&[128 + (number % 128) as u8, (number / 128) as u8]);
    } else {
        hash_groups(hasher, number);
    }
}

fn hash_child(hasher: &mut Sha256, child: &ChildId)
    ensures { (m : List ℕ) → Holds256 hasher.old m → Holds256 hasher.new (m ++ child_form (child.now.index, child.now.id)) }
{
    if child.index >= 128 {
        hash_uvarint(hasher, child.index as u64);
        hasher.update(&child.id);
        return;
    }
    let mut piece = [0; 33];
    piece[0] = child.index as u8;
    piece[1..].copy_from_slice(&child.id);
    hasher.update(&piece);
}

fn hash_children(hasher: &mut Sha256, children: &[ChildId])
    ensures { (m : List ℕ) → Holds256 hasher.old m → Holds256 hasher.new (m ++ flat_map child_form (children_of children.now)) }
{
    for child in children {
        hash_child(hasher, child);
    }
}

fn hash_digest(hasher: &mut Sha256, digest: Option<&Digest>)
    ensures { (m : List ℕ) → Holds256 hasher.old m → Holds256 hasher.new (m ++ digest_form (option_copied digest.entry)) }
{
    match digest {
        None => hasher.update(&[0]),
        Some(digest) => {
            let bytes = digest.bytes();
            // A digest has at most 32 bytes, so its length is one group.
            hasher.update(&[1, bytes.len() as u8]);
            hasher.update(bytes);
        }
    }
}

fn hash_key(hasher: &mut Sha256, key: &Key)
    ensures { (m : List ℕ) → Holds256 hasher.old m → Holds256 hasher.new (m ++ key_form key.now) }
{
    hash_uvarint(hasher, key.bits());
    hasher.update(key.bytes());
}

/// The ID of a node with this key, this digest of its value, if it has one, and these children.
pub fn id_of<L: Ledger>(
    key: &Key,
    digest: Option<&Digest>,
    children: &[ChildId],
    steps: &mut Steps<L>,
) -> Id
    ensures id { result ≡ sha256 (hashed_string key.now (option_copied digest.entry) (children_of children.now)) }
    ensures cost { steps.new ≡ steps.old + 1 }
{
    steps.tick();
    let mut hasher = Sha256::new();
    hash_uvarint(&mut hasher, children.len() as u64);
    hash_children(&mut hasher, children);
    hash_digest(&mut hasher, digest);
    hash_key(&mut hasher, key);
    hasher.finalize()
}
