ghost use Rattle.std.specs.Prelude.{◌≡◌, ◌+◌, ◌<◌, ◌≤◌, [], drop, ◌∷◌, ◌++◌, map, IfOk, MatchOption, OnSome};
ghost use Rattle.std.specs.VecDeque.{deque_len};
ghost use Rattle.trie_model.specs.Bits.{IsRising};
ghost use Rattle.trie_model.specs.Items.{place_of, places};
ghost use Rattle.trie_items.specs.Items.{item_of};
ghost use Rattle.proof_model.specs.Claims.{in_order};
ghost use Rattle.proof_check.specs.ItemFronts.{fronts_cmp};

use bit_keys::{Key, NoMemory};
use std::alloc::Global;
use std::cmp::Ordering;
use std::collections::VecDeque;
use trie_items::Item;

/// The key of a value, the slot of a stub.
pub(crate) fn place(item: &Item) -> &Key
    ensures { result.now ≡ place_of (item_of item.now) }
{
    match item {
        Item::Val { key, .. } => key,
        Item::Stub { slot, .. } => slot,
    }
}

/// How the first items compare. One that is not there stands behind all others.
fn compare_fronts(left: &VecDeque<Item>, right: &VecDeque<Item>) -> Ordering
    ensures { result ≡ fronts_cmp (map item_of left.now.items) (map item_of right.now.items) }
{
    match (left.front(), right.front()) {
        (Some(first), Some(second)) => place(first).compare(place(second)),
        (None, Some(_)) => Ordering::Greater,
        _ => Ordering::Less,
    }
}

fn drop_first(items: &mut VecDeque<Item>)
    ensures items { items.new.items ≡ drop 1 items.old.items }
    ensures len { deque_len items.new ≤ deque_len items.old }
{
    let _first = items.pop_front();
}

/// Takes the first item of all. Of two with one place the left one is taken, and the other dropped.
fn take_first(left: &mut VecDeque<Item>, right: &mut VecDeque<Item>) -> Option<Item>
    requires left { IsRising (places (map item_of left.old.items)) }
    requires right { IsRising (places (map item_of right.old.items)) }
    ensures taken { MatchOption result (in_order (map item_of left.old.items ++ map item_of right.old.items) ≡ []) (λ i. in_order (map item_of left.old.items ++ map item_of right.old.items) ≡ item_of i ∷ in_order (map item_of left.new.items ++ map item_of right.new.items)) }
    ensures left { IsRising (places (map item_of left.new.items)) }
    ensures right { IsRising (places (map item_of right.new.items)) }
    ensures fewer { OnSome result (deque_len left.new + deque_len right.new < deque_len left.old + deque_len right.old) }
{
    match compare_fronts(left, right) {
        Ordering::Less => left.pop_front(),
        Ordering::Greater => right.pop_front(),
        Ordering::Equal => {
            drop_first(right);
            left.pop_front()
        }
    }
}

/// The items of both in their order. Of two with one place the left one stands.
pub(crate) fn merge(
    alloc: Global,
    left: VecDeque<Item>,
    right: VecDeque<Item>,
) -> Result<VecDeque<Item>, NoMemory>
    requires left { IsRising (places (map item_of left.items)) }
    requires right { IsRising (places (map item_of right.items)) }
    ensures { IfOk result (λ q. map item_of q.items ≡ in_order (map item_of left.items ++ map item_of right.items)) }
{
    if right.is_empty() {
        return Ok(left);
    }
    if left.is_empty() {
        return Ok(right);
    }
    let mut left = left;
    let mut right = right;
    let mut merged = VecDeque::new(alloc);
    while let Some(item) = take_first(&mut left, &mut right) {
        merged.push_back(item)?;
    }
    Ok(merged)
}
