ghost use Rattle.std.specs.Prelude.{◌≡◌, ◌≤◌, ◌++◌, [], map, drop, IfOk, IfSome, OnOk, None};
ghost use Rattle.std.specs.List.{prefix_len};
ghost use Rattle.std.specs.VecDeque.{deque_len};
ghost use Rattle.trie_model.specs.Maps.{limits, entry_item as item_of_pair};
ghost use Rattle.bit_keys.specs.Branch.{width_of};
ghost use Rattle.trie_items.specs.Items.{item_of};
ghost use Rattle.proof_model.specs.Claims.{claim_items};
ghost use Rattle.proof_model.specs.Refusals.{path_refusal};
ghost use Rattle.proof_model.specs.SoundProofs.{IsClaim};
ghost use Rattle.proof_check.specs.Claims.{claim_of, pair_of, AreUnbroken};
ghost use Rattle.proof_check.specs.ItemFronts.{begins_before, is_before, put_before};
ghost use Rattle.proof_check.specs.Descents.{IsPathOf, told_down, told_up};
ghost use Rattle.proof_check.specs.CheckResults.{Tells};

use crate::beside::{most_told, push_down, push_up, told_beside};
use crate::claim::{Claim, Entry};
use crate::merging::{merge, place};
use crate::paths::check_paths;
use crate::verify_fault::VerifyFault;
use bit_keys::{Branch, Key, NoMemory};
use proof_model::claim_items_are_valid;
use range_model::bytes_lie_as_their_bits;
use std::alloc::Global;
use std::collections::VecDeque;
use trie_items::{Item, ItemList, value_digest};

fn entry_item(alloc: Global, entry: &Entry) -> Result<Item, NoMemory>
    ensures { IfOk result (λ i. item_of i ≡ item_of_pair (pair_of entry.now)) }
{
    Ok(Item::Val {
        key: Key::from_bytes(alloc, entry.key)?,
        digest: value_digest(entry.value),
    })
}

/// Adds the items of the entries, in the order of the entries.
fn push_entries(
    alloc: Global,
    entries: &[Entry],
    items: &mut VecDeque<Item>,
) -> Result<(), NoMemory>
    ensures { OnOk result (map item_of items.new.items ≡ map item_of items.old.items ++ map item_of_pair (map pair_of entries.now)) }
{
    for entry in entries {
        items.push_back(entry_item(alloc, entry)?)?;
    }
    Ok(())
}

/// How many items in front come before a key.
fn count_before(items: &VecDeque<Item>, key: &Key) -> usize
    ensures count { result ≡ prefix_len (is_before key.now) (map item_of items.now.items) }
    ensures within { result ≤ deque_len items.now }
{
    let mut count = 0;
    while count < items.len() && place(&items[count]).compare(key).is_lt() {
        count += 1;
    }
    count
}

/// Whether an item stands at a place, and comes before a key.
fn starts_before(items: &VecDeque<Item>, at: usize, key: &Key) -> bool
    ensures { result ≡ begins_before key.now (map item_of (drop at items.now.items)) }
{
    at < items.len() && place(&items[at]).compare(key).is_lt()
}

/// What the start path tells on the way down, the items of the entries, and what the path tells on the way back
/// up; none where one of the ways has an item on the wrong side of the key, which is that of the first entry.
fn put_between(
    alloc: Global,
    branch: Branch,
    claim: &Claim,
    key: &Key,
) -> Result<Option<VecDeque<Item>>, NoMemory>
    requires path { IsPathOf (width_of branch) (claim_of claim.now) claim.now.start.now }
    requires unbroken { AreUnbroken (claim_of claim.now) }
    ensures { IfOk result (λ made. IfSome made (λ q. map item_of q.items ≡ put_before key.now (map item_of_pair (map pair_of claim.now.entries.now)) (told_down (width_of branch) (claim_of claim.now) claim.now.start.now ++ told_up (width_of branch) (claim_of claim.now) claim.now.start.now))) }
{
    let room = most_told(claim.start).saturating_add(claim.entries.len());
    let mut items = VecDeque::with_capacity(alloc, room)?;
    push_down(alloc, branch, claim, claim.start, &mut items)?;
    if count_before(&items, key) < items.len() {
        return Ok(None);
    }
    push_entries(alloc, claim.entries, &mut items)?;
    let behind = items.len();
    push_up(alloc, branch, claim, claim.start, &mut items)?;
    if starts_before(&items, behind, key) {
        return Ok(None);
    }
    Ok(Some(items))
}

/// Puts the items of entries in among others, behind those in front of a key. The queue is turned until
/// its back is where they go, and turned back then, so that no item is compared with those of entries.
fn put_in(
    alloc: Global,
    entries: &[Entry],
    key: &Key,
    beside: VecDeque<Item>,
) -> Result<VecDeque<Item>, NoMemory>
    ensures { IfOk result (λ q. map item_of q.items ≡ put_before key.now (map item_of_pair (map pair_of entries.now)) (map item_of beside.items)) }
{
    let mut items = beside;
    items.reserve(entries.len())?;
    let before = count_before(&items, key);
    let after = items.len() - before;
    items.rotate_left(before);
    push_entries(alloc, entries, &mut items)?;
    items.rotate_left(after);
    Ok(items)
}

/// The items of a claim that has no end path, where its entries lie between the way down its start path and the
/// way back up. So it is where the path leads to the first of them; no item is moved then.
fn gather_one(
    alloc: Global,
    branch: Branch,
    claim: &Claim,
) -> Result<Option<VecDeque<Item>>, NoMemory>
    requires claim { IsClaim limits (width_of branch) (claim_of claim.now) }
    requires unbroken { AreUnbroken (claim_of claim.now) }
    requires alone { claim.now.end.now ≡ [] }
    ensures { IfOk result (λ made. IfSome made (λ q. map item_of q.items ≡ claim_items (width_of branch) (claim_of claim.now))) }
{
    bytes_lie_as_their_bits();
    match claim.entries {
        [] => Ok(None),
        [first, ..] => {
            let key = Key::from_bytes(alloc, first.key)?;
            put_between(alloc, branch, claim, &key)
        }
    }
}

/// The items of a claim, put together of what both paths tell and of those of its entries.
fn gather_both(alloc: Global, branch: Branch, claim: &Claim) -> Result<VecDeque<Item>, NoMemory>
    requires claim { IsClaim limits (width_of branch) (claim_of claim.now) }
    requires unbroken { AreUnbroken (claim_of claim.now) }
    ensures { IfOk result (λ q. map item_of q.items ≡ claim_items (width_of branch) (claim_of claim.now)) }
{
    bytes_lie_as_their_bits();
    let start = told_beside(alloc, branch, claim, claim.start)?;
    let end = told_beside(alloc, branch, claim, claim.end)?;
    let beside = merge(alloc, start, end)?;
    match claim.entries {
        [] => Ok(beside),
        [first, ..] => {
            let key = Key::from_bytes(alloc, first.key)?;
            put_in(alloc, claim.entries, &key, beside)
        }
    }
}

/// The items of a claim whose paths are in order, in the order of the keys.
fn gather(alloc: Global, branch: Branch, claim: &Claim) -> Result<VecDeque<Item>, NoMemory>
    requires claim { IsClaim limits (width_of branch) (claim_of claim.now) }
    requires unbroken { AreUnbroken (claim_of claim.now) }
    ensures { IfOk result (λ q. map item_of q.items ≡ claim_items (width_of branch) (claim_of claim.now)) }
{
    if claim.end.is_empty() {
        if let Some(items) = gather_one(alloc, branch, claim)? {
            return Ok(items);
        }
    }
    gather_both(alloc, branch, claim)
}

/// The items of a claim. It tells of the paths alone why they are refused.
pub fn items_of(alloc: Global, branch: Branch, claim: &Claim) -> Result<ItemList, VerifyFault>
    requires { IsClaim limits (width_of branch) (claim_of claim.now) }
    ensures told { Tells result (path_refusal claim.now.start.now claim.now.end.now None) }
    ensures width { IfOk result (λ s. s.width ≡ width_of branch) }
    ensures items { IfOk result (λ s. s.items ≡ claim_items (width_of branch) (claim_of claim.now)) }
{
    claim_items_are_valid();
    check_paths(claim.start, claim.end)?;
    let items = gather(alloc, branch, claim)?;
    Ok(ItemList::from_items(branch, items.into_vec()))
}
