ghost use Rattle.std.specs.Prelude.{◌≡◌, ◌<◌, ◌++◌, ◌∷◌, [], map, IfOk, OnOk, None};
ghost use Rattle.std.specs.Option.{option_to_list};
ghost use Rattle.std.specs.List.{AllByRecursion, prefix_len};
ghost use Rattle.trie_model.specs.Bits.{bits_of};
ghost use Rattle.range_model.specs.Ranges.{is_inside as lies_inside, is_outside as lies_outside};
ghost use Rattle.bit_keys.specs.Branch.{width_of, factor_of};
ghost use Rattle.bit_keys.specs.Ranges.{seen_place};
ghost use Rattle.trie_items.specs.Items.{item_of};
ghost use Rattle.trie_items.specs.Children.{children_of};
ghost use Rattle.proof_model.specs.Paths.{IsChild, IsProofNode};
ghost use Rattle.proof_model.specs.Claims.{nodes, leads_to as leads_to_node, value_beside as value_shown, stub_beside as stub_shown, in_order};
ghost use Rattle.proof_model.specs.Refusals.{extends, first_break};
ghost use Rattle.proof_check.specs.Claims.{claim_of, stubs_of, told_of, AreUnbroken};
ghost use Rattle.proof_check.specs.Descents.{IsPathOf, is_in_front, in_front as count_in_front, told_ahead, told_behind, told_down, told_up};

use crate::claim::Claim;
use crate::proof_node::ProofNode;
use bit_keys::{Branch, Key, NoMemory, Place, Range, key_place, place};
use std::alloc::Global;
use std::collections::VecDeque;
use trie_items::{ChildId, Item};

fn is_inside(place: Place) -> bool
    ensures { result ≡ lies_inside (seen_place place) }
{
    matches!(place, Place::Inside)
}

fn is_outside(place: Place) -> bool
    ensures { result ≡ lies_outside (seen_place place) }
{
    match place {
        Place::Before | Place::After => true,
        Place::Inside | Place::Straddles => false,
    }
}

/// Whether the key of a node of a path begins with a slot. That of its last node does then.
fn leads_to(slot: &Key, path: &[ProofNode]) -> bool
    requires { first_break extends 0 path.now ≡ None }
    ensures { result ≡ leads_to_node slot.now path.now }
{
    match path.last() {
        Some(deepest) => slot.is_prefix(&deepest.key),
        None => false,
    }
}

/// The value at a node's key, where it is shown and lies beside the range.
fn value_beside(alloc: Global, reached: &Range, node: &ProofNode) -> Result<Option<Item>, NoMemory>
    ensures { IfOk result (λ i. map item_of (option_to_list i) ≡ value_shown reached.now node.now) }
{
    let Some(digest) = &node.digest else {
        return Ok(None);
    };
    if is_inside(key_place(&node.key, reached)) {
        return Ok(None);
    }
    Ok(Some(Item::Val {
        key: node.key.copy(alloc)?,
        digest: digest.copy(),
    }))
}

/// Whether a slot leads to a node of one of the paths.
fn is_shown(slot: &Key, claim: &Claim) -> bool
    requires { AreUnbroken (claim_of claim.now) }
    ensures { result ≡ leads_to_node slot.now (nodes (claim_of claim.now)) }
{
    leads_to(slot, claim.start) || leads_to(slot, claim.end)
}

/// A child as a stub, where its slot lies beside the range and leads to no node of the paths.
fn stub_beside(
    alloc: Global,
    branch: Branch,
    claim: &Claim,
    key: &Key,
    child: &ChildId,
) -> Result<Option<Item>, NoMemory>
    requires index { child.now.index < factor_of branch }
    requires unbroken { AreUnbroken (claim_of claim.now) }
    ensures { IfOk result (λ i. map item_of (option_to_list i) ≡ stub_shown claim.now.reached.now (nodes (claim_of claim.now)) (key.now ++ bits_of (width_of branch) child.now.index) child.now.id) }
{
    let slot = key.slot(alloc, branch, child.index)?;
    if !is_outside(place(&slot, claim.reached)) || is_shown(&slot, claim) {
        return Ok(None);
    }
    Ok(Some(Item::Stub { slot, id: child.id }))
}

fn push_some(items: &mut VecDeque<Item>, item: Option<Item>) -> Result<(), NoMemory>
    ensures { OnOk result (items.new.items ≡ items.old.items ++ option_to_list item) }
{
    if let Some(item) = item {
        items.push_back(item)?;
    }
    Ok(())
}

/// Adds the children of the node with this key that are stubs beside the range.
fn push_stubs(
    alloc: Global,
    branch: Branch,
    claim: &Claim,
    key: &Key,
    children: &[ChildId],
    told: &mut VecDeque<Item>,
) -> Result<(), NoMemory>
    requires children { AllByRecursion (IsChild (width_of branch)) (children_of children.now) }
    requires unbroken { AreUnbroken (claim_of claim.now) }
    ensures { OnOk result (map item_of told.new.items ≡ map item_of told.old.items ++ stubs_of (width_of branch) (claim_of claim.now) key.now (children_of children.now)) }
{
    for child in children {
        push_some(told, stub_beside(alloc, branch, claim, key, child)?)?;
    }
    Ok(())
}

/// How many children have an index below this one.
fn count_below(children: &[ChildId], index: u16) -> usize
    ensures { result ≡ prefix_len (is_in_front index) (children_of children.now) }
{
    let mut count = 0;
    while count < children.len() && children[count].index < index {
        count += 1;
    }
    count
}

/// How many children of a node come in front of the way to the nodes behind it in its path. Where there
/// are none, all do.
fn in_front(branch: Branch, node: &ProofNode, deeper: &[ProofNode]) -> usize
    requires whole { AllByRecursion (IsProofNode (width_of branch)) (node.now ∷ deeper.now) }
    requires unbroken { first_break extends 0 (node.now ∷ deeper.now) ≡ None }
    ensures { result ≡ count_in_front (width_of branch) node.now deeper.now }
{
    match deeper {
        [] => node.children.len(),
        [next, ..] => {
            let tokens = node.key.bits() / u64::from(branch.width());
            count_below(node.children.as_slice(), next.key.token(branch, tokens))
        }
    }
}

/// Adds what a node tells in front of the nodes behind it in its path.
fn push_ahead(
    alloc: Global,
    branch: Branch,
    claim: &Claim,
    node: &ProofNode,
    deeper: &[ProofNode],
    told: &mut VecDeque<Item>,
) -> Result<(), NoMemory>
    requires path { IsPathOf (width_of branch) (claim_of claim.now) (node.now ∷ deeper.now) }
    requires unbroken { AreUnbroken (claim_of claim.now) }
    ensures { OnOk result (map item_of told.new.items ≡ map item_of told.old.items ++ told_ahead (width_of branch) (claim_of claim.now) node.now deeper.now) }
{
    push_some(told, value_beside(alloc, claim.reached, node)?)?;
    let (front, _) = node
        .children
        .as_slice()
        .split_at(in_front(branch, node, deeper));
    push_stubs(alloc, branch, claim, &node.key, front, told)
}

/// Adds what a node tells behind them.
fn push_behind(
    alloc: Global,
    branch: Branch,
    claim: &Claim,
    node: &ProofNode,
    deeper: &[ProofNode],
    told: &mut VecDeque<Item>,
) -> Result<(), NoMemory>
    requires path { IsPathOf (width_of branch) (claim_of claim.now) (node.now ∷ deeper.now) }
    requires unbroken { AreUnbroken (claim_of claim.now) }
    ensures { OnOk result (map item_of told.new.items ≡ map item_of told.old.items ++ told_behind (width_of branch) (claim_of claim.now) node.now deeper.now) }
{
    let (_, back) = node
        .children
        .as_slice()
        .split_at(in_front(branch, node, deeper));
    push_stubs(alloc, branch, claim, &node.key, back, told)
}

/// How many items the nodes of a path tell at most. It makes room for them, and decides nothing else.
pub(crate) fn most_told(path: &[ProofNode]) -> usize {
    let mut most = 0usize;
    for node in path {
        most = most.saturating_add(node.children.len()).saturating_add(1);
    }
    most
}

/// Adds what each node tells in front of those behind it, from the first node on.
pub(crate) fn push_down(
    alloc: Global,
    branch: Branch,
    claim: &Claim,
    path: &[ProofNode],
    told: &mut VecDeque<Item>,
) -> Result<(), NoMemory>
    requires path { IsPathOf (width_of branch) (claim_of claim.now) path.now }
    requires unbroken { AreUnbroken (claim_of claim.now) }
    ensures { OnOk result (map item_of told.new.items ≡ map item_of told.old.items ++ told_down (width_of branch) (claim_of claim.now) path.now) }
{
    for i in 0..path.len() {
        push_ahead(alloc, branch, claim, &path[i], &path[i + 1..], told)?;
    }
    Ok(())
}

/// Adds what each node tells behind them, from the last node back.
pub(crate) fn push_up(
    alloc: Global,
    branch: Branch,
    claim: &Claim,
    path: &[ProofNode],
    told: &mut VecDeque<Item>,
) -> Result<(), NoMemory>
    requires path { IsPathOf (width_of branch) (claim_of claim.now) path.now }
    requires unbroken { AreUnbroken (claim_of claim.now) }
    ensures { OnOk result (map item_of told.new.items ≡ map item_of told.old.items ++ told_up (width_of branch) (claim_of claim.now) path.now) }
{
    let mut left = path.len();
    while left > 0 {
        left -= 1;
        push_behind(alloc, branch, claim, &path[left], &path[left + 1..], told)?;
    }
    Ok(())
}

/// What the nodes of a path tell beside the range, in the order of the keys. All that a node's deeper
/// nodes tell lies in one of its slots, so the way down and back up passes everything in order.
pub(crate) fn told_beside(
    alloc: Global,
    branch: Branch,
    claim: &Claim,
    path: &[ProofNode],
) -> Result<VecDeque<Item>, NoMemory>
    requires path { IsPathOf (width_of branch) (claim_of claim.now) path.now }
    requires unbroken { AreUnbroken (claim_of claim.now) }
    ensures { IfOk result (λ q. map item_of q.items ≡ in_order (told_of (width_of branch) (claim_of claim.now) path.now)) }
{
    let mut told = VecDeque::with_capacity(alloc, most_told(path))?;
    push_down(alloc, branch, claim, path, &mut told)?;
    push_up(alloc, branch, claim, path, &mut told)?;
    Ok(told)
}
