// The nodes of a path, read field by field from the left.
ghost use Rattle.std.specs.Prelude.{◌≡◌, ◌≤◌, length, IfOk};
ghost use Rattle.base_model.specs.Fields.{bits_at, bytes_at};
ghost use Rattle.bit_keys.specs.Branch.{width_of};
ghost use Rattle.trie_model.specs.Hashing.{hash_length};
ghost use Rattle.trie_model.specs.Maps.{limits};
ghost use Rattle.trie_model.specs.StoredNode.{rest_limit};
ghost use Rattle.trie_items.specs.Children.{children_of as shown_children};
ghost use Rattle.proof_model.specs.Wire.{Short, Padding, LongDigest, wrong, maybe_at, bit_count_at, node_key_at, index_at, children_at, node_at, nodes_at, path_at};
ghost use Rattle.proof_check.specs.ReaderAnswers.{Gives, child_at};

use crate::fields::{bytes_of, maybe_of, number_of};
use crate::proof_node::ProofNode;
use crate::sized_field::SizedField;
use crate::wire_fault::{WireFault, WireKind};
use bit_keys::{Branch, Id, Key};
use node_codec::Digest;
use std::alloc::Global;
use trie_items::ChildId;

// The longest key of a node, in bits.
const NODE_KEY_LIMIT: u64 = 2048;

/// A path: the number of its nodes, and the nodes.
#[tactic(auto, unfolding(proof_model::specs::Wire::path_at))]
pub(crate) fn path_of(
    alloc: Global,
    bytes: &[u8],
    at: usize,
    branch: Branch,
) -> Result<(Vec<ProofNode>, usize), WireFault>
    requires { at ≤ length bytes.now }
    ensures exact { Gives (λ x. (x.0.items, x.1)) result (path_at limits (width_of branch) bytes.now at) }
    ensures inside { IfOk result (λ x. x.1 ≤ length bytes.now) }
{
    let (count, at) = number_of(bytes, at)?;
    nodes_of(alloc, bytes, at, branch, count)
}

// The count may be any number, so no room is made for so many.
fn nodes_of(
    alloc: Global,
    bytes: &[u8],
    at: usize,
    branch: Branch,
    count: u64,
) -> Result<(Vec<ProofNode>, usize), WireFault>
    requires { at ≤ length bytes.now }
    ensures exact { Gives (λ x. (x.0.items, x.1)) result (nodes_at limits count (width_of branch) bytes.now at) }
    ensures inside { IfOk result (λ x. x.1 ≤ length bytes.now) }
{
    let mut nodes = Vec::new(alloc);
    let mut next = at;
    for _ in 0..count {
        let (node, after) = node_of(alloc, bytes, next, branch)?;
        nodes.push(node)?;
        next = after;
    }
    Ok((nodes, next))
}

#[tactic(auto, unfolding(proof_model::specs::Wire::node_at))]
fn node_of(
    alloc: Global,
    bytes: &[u8],
    at: usize,
    branch: Branch,
) -> Result<(ProofNode, usize), WireFault>
    requires { at ≤ length bytes.now }
    ensures exact { Gives (λ x. (x.0, x.1)) result (node_at limits (width_of branch) bytes.now at) }
    ensures inside { IfOk result (λ x. x.1 ≤ length bytes.now) }
{
    let (key, at) = node_key_of(alloc, bytes, at, branch)?;
    let (digest, at) = digest_of(bytes, at)?;
    let (count, at) = number_of(bytes, at)?;
    let (children, at) = children_of(alloc, bytes, at, branch, count)?;
    let node = ProofNode {
        key,
        digest,
        children,
    };
    Ok((node, at))
}

#[tactic(auto, unfolding(proof_model::specs::Wire::node_key_at))]
fn node_key_of(
    alloc: Global,
    bytes: &[u8],
    at: usize,
    branch: Branch,
) -> Result<(Key, usize), WireFault>
    requires { at ≤ length bytes.now }
    ensures exact { Gives (λ x. (x.0, x.1)) result (node_key_at limits (width_of branch) bytes.now at) }
    ensures inside { IfOk result (λ x. x.1 ≤ length bytes.now) }
{
    let (bits, at) = bit_count_of(bytes, at, branch)?;
    key_of(alloc, bytes, at, bits)
}

#[tactic(auto, unfolding(proof_model::specs::Wire::bit_count_at))]
fn bit_count_of(bytes: &[u8], at: usize, branch: Branch) -> Result<(u64, usize), WireFault>
    requires { at ≤ length bytes.now }
    ensures exact { Gives (λ x. (x.0, x.1)) result (bit_count_at limits (width_of branch) bytes.now at) }
    ensures inside { IfOk result (λ x. x.1 ≤ length bytes.now) }
    ensures short { IfOk result (λ x. x.0 ≤ rest_limit limits) }
{
    let (bits, next) = number_of(bytes, at)?;
    if bits > NODE_KEY_LIMIT {
        return Err(WireKind::LongKey.at(at));
    }
    if bits % u64::from(branch.width()) != 0 {
        return Err(WireKind::Tokens.at(at));
    }
    Ok((bits, next))
}

#[tactic(auto, unfolding(base_model::specs::Fields::bits_at))]
fn key_of(alloc: Global, bytes: &[u8], at: usize, bits: u64) -> Result<(Key, usize), WireFault>
    requires place { at ≤ length bytes.now }
    requires short { bits ≤ rest_limit limits }
    ensures exact { Gives (λ x. (x.0, x.1)) result (bits_at (wrong Short) (wrong Padding) bits bytes.now at) }
    ensures inside { IfOk result (λ x. x.1 ≤ length bytes.now) }
{
    let (packed, next) = bytes_of(bytes, at, bits.div_ceil(8) as usize)?;
    match Key::from_parts(alloc, bits, packed)? {
        Some(key) => Ok((key, next)),
        None => Err(WireKind::Padding.at(at)),
    }
}

fn digest_of(bytes: &[u8], at: usize) -> Result<(Option<Digest>, usize), WireFault>
    requires { at ≤ length bytes.now }
    ensures exact { Gives (λ x. (x.0, x.1)) result (maybe_at LongDigest hash_length bytes.now at) }
    ensures inside { IfOk result (λ x. x.1 ≤ length bytes.now) }
{
    let (found, at) = maybe_of(bytes, at, SizedField::Digest)?;
    match found {
        Some(digest) => Ok((Some(Digest::new(digest).unwrap()), at)),
        None => Ok((None, at)),
    }
}

fn children_of(
    alloc: Global,
    bytes: &[u8],
    at: usize,
    branch: Branch,
    count: u64,
) -> Result<(Vec<ChildId>, usize), WireFault>
    requires { at ≤ length bytes.now }
    ensures exact { Gives (λ x. (shown_children x.0.items, x.1)) result (children_at count (width_of branch) 0 bytes.now at) }
    ensures inside { IfOk result (λ x. x.1 ≤ length bytes.now) }
{
    // The count may be any number, but a node has no more children than the factor.
    let most = count.min(u64::from(branch.factor()));
    let mut children = Vec::with_capacity(alloc, most as usize)?;
    let mut next = at;
    // The index may not be below this one.
    let mut low = 0;
    for _ in 0..count {
        let (child, after) = child_of(bytes, next, branch, low)?;
        low = u64::from(child.index) + 1;
        children.push(child)?;
        next = after;
    }
    Ok((children, next))
}

#[tactic(auto, unfolding(crate::specs::ReaderAnswers::child_at))]
fn child_of(
    bytes: &[u8],
    at: usize,
    branch: Branch,
    low: u64,
) -> Result<(ChildId, usize), WireFault>
    requires { at ≤ length bytes.now }
    ensures exact { Gives (λ x. ((x.0.index, x.0.id), x.1)) result (child_at (width_of branch) low bytes.now at) }
    ensures inside { IfOk result (λ x. x.1 ≤ length bytes.now) }
{
    let (index, at) = index_of(bytes, at, branch, low)?;
    let (id, at) = id_of(bytes, at)?;
    Ok((ChildId { index, id }, at))
}

#[tactic(auto, unfolding(proof_model::specs::Wire::index_at))]
fn index_of(bytes: &[u8], at: usize, branch: Branch, low: u64) -> Result<(u16, usize), WireFault>
    requires { at ≤ length bytes.now }
    ensures exact { Gives (λ x. (x.0, x.1)) result (index_at (width_of branch) low bytes.now at) }
    ensures inside { IfOk result (λ x. x.1 ≤ length bytes.now) }
{
    let (index, next) = number_of(bytes, at)?;
    if index >= u64::from(branch.factor()) {
        return Err(WireKind::Index.at(at));
    }
    if index < low {
        return Err(WireKind::Order.at(at));
    }
    Ok((index as u16, next))
}

fn id_of(bytes: &[u8], at: usize) -> Result<(Id, usize), WireFault>
    requires { at ≤ length bytes.now }
    ensures exact { Gives (λ x. (x.0, x.1)) result (bytes_at (wrong Short) hash_length bytes.now at) }
    ensures inside { IfOk result (λ x. x.1 ≤ length bytes.now) }
{
    let (front, next) = bytes_of(bytes, at, 32)?;
    let mut id = [0; 32];
    id.copy_from_slice(front);
    Ok((id, next))
}
