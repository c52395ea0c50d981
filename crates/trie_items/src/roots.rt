ghost use Rattle.std.specs.Prelude.{◌≡◌, ◌+◌, ◌*◌, ◌<◌, ◌≤◌, ℕ, List, [], length, map, drop, IfOk, OnOk};
ghost use Rattle.std.specs.List.{AllByRecursion, prefix_len};
ghost use Rattle.std.specs.Option.{option_copied};
ghost use Rattle.trie_model.specs.Ids.{node_key};
ghost use Rattle.trie_model.specs.Items.{Item as KnownItem, IsValid, place_of};
ghost use Rattle.bit_keys.specs.Branch.{width_of};
ghost use Rattle.trie_items.specs.Items.{item_of};
ghost use Rattle.trie_items.specs.SlotIds.{lone, slot_id, slot_strings, has_token, own_count, own_digest as digest_in_front};

use crate::child::ChildId;
use crate::ids::id_of;
use crate::items::Item;
use crate::steps::Steps;
use bit_keys::{Branch, Id, Key};
use mdb_base::NoMemory;
use node_codec::Digest;
use std::alloc::Global;
use std::sync::ledger::Ledger;

/// The ID of a stub that is alone, and has a slot of so many bits.
fn lone_stub(items: &[Item], bits: u64) -> Option<Id>
    ensures { result ≡ lone bits (map item_of items.now) }
{
    match items {
        [Item::Stub { slot, id }] if slot.bits() == bits => Some(*id),
        _ => None,
    }
}

/// How many bits the key of the root node has.
fn node_bits(branch: Branch, items: &[Item]) -> u64
    requires valid { IsValid (width_of branch) (map item_of items.now) }
    requires some { 1 ≤ length items.now }
    ensures { result ≡ length (node_key (width_of branch) (map item_of items.now)) }
{
    let first = &items[0];
    if items.len() == 1 {
        return first.position_bits(branch);
    }
    let last = &items[items.len() - 1];
    first.place().common(last.place(), branch)
}

/// The key of the root node.
fn root_key(alloc: Global, branch: Branch, items: &[Item]) -> Result<Key, NoMemory>
    requires valid { IsValid (width_of branch) (map item_of items.now) }
    requires some { 1 ≤ length items.now }
    ensures { IfOk result (λ k. k ≡ node_key (width_of branch) (map item_of items.now)) }
{
    let bits = node_bits(branch, items);
    let Ok(key) = items[0].place().first(alloc, bits) else {
        return Err(NoMemory);
    };
    Ok(key)
}

/// The digest of the item in front, where it is the value at the node.
fn own_digest<'a>(items: &'a [Item], key: &Key) -> Option<&'a Digest>
    ensures { option_copied result ≡ digest_in_front key.now (map item_of items.now) }
{
    match items {
        [Item::Val { key: own, digest }, ..] if key == own => Some(digest),
        _ => None,
    }
}

/// The items without the value at the node.
fn below_node<'a>(items: &'a [Item], key: &Key) -> &'a [Item]
    ensures { result.now ≡ drop (own_count key.now (map item_of items.now)) items.now }
{
    match items {
        [Item::Val { key: own, .. }, others @ ..] if key == own => others,
        _ => items,
    }
}

/// How many items in front have this token behind so many tokens.
fn run_len(branch: Branch, items: &[Item], tokens: u64, token: u16) -> usize
    requires { AllByRecursion (λ (i : KnownItem). width_of branch * (tokens + 1) ≤ length (place_of i)) (map item_of items.now) }
    ensures { result ≡ prefix_len (has_token (width_of branch) (width_of branch * tokens) token) (map item_of items.now) }
{
    let mut count = 0;
    while count < items.len() && items[count].place().token(branch, tokens) == token {
        count += 1;
    }
    count
}

/// How many bits a slot has that is a token below so many tokens.
fn slot_bits(branch: Branch, tokens: u64, item: &Item) -> u64
    requires { width_of branch * (tokens + 1) ≤ length (place_of (item_of item.now)) }
    ensures { result ≡ width_of branch * tokens + width_of branch }
{
    // That the item's key has these bits says that their number fits.
    let _bits = item.place().bits();
    let width = u64::from(branch.width());
    width * tokens + width
}

/// No child, and room for as many as these items can make.
fn no_children(alloc: Global, branch: Branch, below: &[Item]) -> Result<Vec<ChildId>, NoMemory>
    ensures { IfOk result (λ v. v.items ≡ []) }
{
    let most = below.len().min(usize::from(branch.factor()));
    Ok(Vec::with_capacity(alloc, most)?)
}

/// The ID of what lies in a slot of so many bits: of the stub there, or of the items below it.
pub(crate) fn slot_root<L: Ledger>(
    alloc: Global,
    branch: Branch,
    slot: u64,
    items: &[Item],
    steps: &mut Steps<L>,
) -> Result<Id, NoMemory>
    requires valid { IsValid (width_of branch) (map item_of items.now) }
    requires some { 1 ≤ length items.now }
    ensures id { IfOk result (λ x. x ≡ slot_id (width_of branch) slot (map item_of items.now)) }
    ensures cost { OnOk result (steps.new ≡ steps.old + length (slot_strings (width_of branch) slot (map item_of items.now))) }
{
    if let Some(id) = lone_stub(items, slot) {
        return Ok(id);
    }
    let key = root_key(alloc, branch, items)?;
    let tokens = key.bits() / u64::from(branch.width());
    let mut rest = below_node(items, &key);
    let mut children = no_children(alloc, branch, rest)?;
    while let [next, ..] = rest {
        let index = next.place().token(branch, tokens);
        let below = slot_bits(branch, tokens, next);
        let (group, after) = rest.split_at(run_len(branch, rest, tokens, index));
        let id = slot_root(alloc, branch, below, group, steps)?;
        children.push(ChildId { index, id })?;
        rest = after;
    }
    Ok(id_of(&key, own_digest(items, &key), children.as_slice(), steps))
}
