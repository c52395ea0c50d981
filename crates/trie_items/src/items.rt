ghost use Rattle.std.specs.Prelude.{◌≡◌, ◌↔◌, IsTrue, length};
ghost use Rattle.bit_keys.specs.Branch.{width_of};
ghost use Rattle.trie_model.specs.Items.{place_of, position, covers as covers_key, IsWholeItem, Follows};
ghost use Rattle.trie_items.specs.Items.{item_of};

use bit_keys::{Branch, Id, Key};
use node_codec::Digest;

/// What is known of a map at one place.
#[derive(Debug, Drop)]
pub enum Item {
    /// The digest of the value at a key.
    Val { key: Key, digest: Digest },
    /// The ID of all that lies in a slot, which is a node's key and one token more.
    Stub { slot: Key, id: Id },
}

impl Item {
    /// The key of a value, the slot of a stub.
    pub(crate) fn place(&self) -> &Key
        ensures { result.now ≡ place_of (item_of self.now) }
    {
        match self {
            Item::Val { key, .. } => key,
            Item::Stub { slot, .. } => slot,
        }
    }

    /// How many bits stand above the item: all of a value's key, all but the last token of a slot.
    pub(crate) fn position_bits(&self, branch: Branch) -> u64
        requires { IsWholeItem (width_of branch) (item_of self.now) }
        ensures { result ≡ length (position (width_of branch) (item_of self.now)) }
    {
        match self {
            Item::Val { key, .. } => key.bits(),
            Item::Stub { slot, .. } => slot.bits() - u64::from(branch.width()),
        }
    }

    /// Whether a key or slot lies in the slot of this item.
    fn covers(&self, place: &Key) -> bool
        ensures { result ≡ covers_key (item_of self.now) place.now }
    {
        match self {
            Item::Val { .. } => false,
            Item::Stub { slot, .. } => slot.is_prefix(place),
        }
    }

    /// Whether another item may stand behind this one.
    pub(crate) fn is_followed_by(&self, next: &Item) -> bool
        ensures { IsTrue result ↔ Follows (item_of self.now) (item_of next.now) }
    {
        self.place().compare(next.place()).is_lt() && !self.covers(next.place())
    }
}
