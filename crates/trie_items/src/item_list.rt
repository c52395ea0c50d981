ghost use Rattle.std.specs.Prelude.{◌≡◌, ◌↔◌, ◌+◌, ◌++◌, ◌∷◌, [], length, map, IsTrue, IfOk, OnOk, OnErr, IsErrOf};
ghost use Rattle.trie_model.specs.Ids.{id};
ghost use Rattle.trie_model.specs.Strings.{strings};
ghost use Rattle.trie_model.specs.Items.{IsWholeItem, IsValid};
ghost use Rattle.bit_keys.specs.Branch.{width_of};
ghost use Rattle.trie_items.specs.Items.{item_of, LastFollows};

use crate::item_fault::ItemFault;
use crate::items::Item;
use crate::roots::slot_root;
use crate::steps::Steps;
use bit_keys::{Branch, Id};
use mdb_base::NoMemory;
use std::alloc::Global;
use std::marker::Model;
use std::sync::ledger::Ledger;

/// Items in the order of their keys and slots, of which none lies in the slot of another.
#[derive(Debug, Drop)]
pub struct ItemList {
    branch: Branch,
    items: Vec<Item>,
}

impl Model for ItemList {
    ghost use Rattle.std.specs.Prelude.{map};
    ghost use Rattle.trie_model.specs.Items.{IsValid};
    ghost use Rattle.bit_keys.specs.Branch.{width_of};
    ghost use Rattle.trie_items.specs.Items.{ListedItems, item_of};

    ghost Value = { ListedItems };

    ghost view = { λ s. record { width = width_of s.branch; items = map item_of s.items.items } };

    ghost invariant = { λ s. IsValid (width_of s.branch) (map item_of s.items.items) };
}

/// Whether an item may stand behind others.
fn may_follow(items: &[Item], item: &Item) -> bool
    ensures { IsTrue result ↔ LastFollows (map item_of items.now) (item_of item.now) }
{
    match items.last() {
        Some(last) => last.is_followed_by(item),
        None => true,
    }
}

impl ItemList {
    /// A list of no items.
    pub fn new(alloc: Global, branch: Branch) -> ItemList
        ensures width { result.width ≡ width_of branch }
        ensures items { result.items ≡ [] }
    {
        ItemList {
            branch,
            items: Vec::new(alloc),
        }
    }

    /// The list of items that are a valid one. None is moved.
    pub fn from_items(branch: Branch, items: Vec<Item>) -> ItemList
        requires { IsValid (width_of branch) (map item_of items.items) }
        ensures width { result.width ≡ width_of branch }
        ensures items { result.items ≡ map item_of items.items }
    {
        ItemList { branch, items }
    }

    /// Puts an item behind those that are there. At an error the list is as it was.
    pub fn push(&mut self, item: Item) -> Result<(), ItemFault>
        requires { IsWholeItem self.old.width (item_of item) }
        ensures width { self.new.width ≡ self.old.width }
        ensures ok { OnOk result (self.new.items ≡ self.old.items ++ item_of item ∷ []) }
        ensures err { OnErr result (self.new.items ≡ self.old.items) }
        ensures order { IsErrOf result ItemFault.Order ↔ (IsValid self.old.width (self.old.items ++ item_of item ∷ []) → ⊥) }
    {
        if !may_follow(self.items.as_slice(), &item) {
            return Err(ItemFault::Order);
        }
        self.items.push(item)?;
        Ok(())
    }

    /// The ID of the list, which is 32 zero bytes where it is empty. Each string is hashed once.
    pub fn root<L: Ledger>(&self, alloc: Global, steps: &mut Steps<L>) -> Result<Id, NoMemory>
        ensures id { IfOk result (λ x. x ≡ id self.now.width self.now.items) }
        ensures cost { OnOk result (steps.new ≡ steps.old + length (strings self.now.width self.now.items)) }
    {
        let items = self.items.as_slice();
        if items.is_empty() {
            return Ok([0; 32]);
        }
        // No slot has no bits, so all items are told of as they stand.
        slot_root(alloc, self.branch, 0, items, steps)
    }
}
