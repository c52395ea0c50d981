ghost use Rattle.std.specs.Prelude.{◌≡◌, ◌≤◌, length, IfOk, Ok};
ghost use Rattle.bit_keys.specs.Branch.{width_of};
ghost use Rattle.base_model.specs.Fields.{number_at, bytes_at, flag_at, bits_at};
ghost use Rattle.trie_model.specs.Maps.{limits};
ghost use Rattle.trie_model.specs.StoredNode.{StoredNode, IsStored, stored_form, Short, BadFlag, Padding, rest_limit, bad_varint, digest_bytes_at, value_at, index_at, bit_count_at, rest_at, child_at, children_at, node_at, stored_node};
ghost use Rattle.node_codec.specs.StoredNodes.{Gives, stored_child, stored_children};

use crate::digest::Digest;
use crate::fault::NodeFault;
use crate::node::{Child, Node};
use bit_keys::{Branch, Id, Key};
use mdb_base::read_uvarint;
use std::alloc::Global;

// The longest rest, in bits.
const REST_LIMIT: u64 = 2048;

/// Reads a stored node, which is all of the bytes.
pub fn decode(alloc: Global, bytes: &[u8], branch: Branch) -> Result<Node, NodeFault>
    // What is read is in the grammar, and spelled so.
    ensures found { IfOk result (λ n. IsStored limits (width_of branch) n × (bytes.now ≡ stored_form n)) }
    // What is spelled so is read, unless memory runs out.
    ensures only { (n : StoredNode) → IsStored limits (width_of branch) n → bytes.now ≡ stored_form n → Gives (λ n. n) result (Ok n) }
    // Which field is the first one outside the grammar.
    ensures exact { Gives (λ n. n) result (stored_node limits (width_of branch) bytes.now) }
{
    whole_node_of(alloc, bytes, branch)
}

#[tactic(auto, unfolding(trie_model::specs::StoredNode::stored_node))]
fn whole_node_of(alloc: Global, bytes: &[u8], branch: Branch) -> Result<Node, NodeFault>
    ensures { Gives (λ n. n) result (stored_node limits (width_of branch) bytes.now) }
{
    let (node, end) = node_of(alloc, bytes, branch)?;
    if end != bytes.len() {
        return Err(NodeFault::Trailing(end));
    }
    Ok(node)
}

#[tactic(auto, unfolding(trie_model::specs::StoredNode::node_at))]
fn node_of(alloc: Global, bytes: &[u8], branch: Branch) -> Result<(Node, usize), NodeFault>
    ensures exact { Gives (λ x. (x.0, x.1)) result (node_at limits (width_of branch) bytes.now 0) }
    ensures inside { IfOk result (λ x. x.1 ≤ length bytes.now) }
{
    let (digest, at) = value_of(bytes, 0)?;
    let (count, at) = number_of(bytes, at)?;
    let (children, at) = children_of(alloc, bytes, at, branch, count)?;
    Ok((Node { digest, children }, at))
}

#[tactic(auto, unfolding(trie_model::specs::StoredNode::value_at))]
fn value_of(bytes: &[u8], at: usize) -> Result<(Option<Digest>, usize), NodeFault>
    requires { at ≤ length bytes.now }
    ensures exact { Gives (λ x. (x.0, x.1)) result (value_at bytes.now at) }
    ensures inside { IfOk result (λ x. x.1 ≤ length bytes.now) }
{
    let (has_value, at) = flag_of(bytes, at)?;
    if !has_value {
        return Ok((None, at));
    }
    let (digest, at) = digest_of(bytes, at)?;
    Ok((Some(digest), at))
}

#[tactic(auto, unfolding(trie_model::specs::StoredNode::digest_bytes_at))]
fn digest_of(bytes: &[u8], at: usize) -> Result<(Digest, usize), NodeFault>
    requires { at ≤ length bytes.now }
    ensures exact { Gives (λ x. (x.0, x.1)) result (digest_bytes_at bytes.now at) }
    ensures inside { IfOk result (λ x. x.1 ≤ length bytes.now) }
{
    let (length, start) = number_of(bytes, at)?;
    if length > 32 {
        return Err(NodeFault::LongDigest(at));
    }
    let (digest, at) = bytes_of(bytes, start, length as usize)?;
    Ok((Digest::short(digest), at))
}

fn children_of(
    alloc: Global,
    bytes: &[u8],
    at: usize,
    branch: Branch,
    count: u64,
) -> Result<(Vec<Child>, usize), NodeFault>
    requires { at ≤ length bytes.now }
    ensures exact { Gives (λ x. (stored_children x.0.items, x.1)) result (children_at limits count (width_of branch) 0 bytes.now at) }
    ensures inside { IfOk result (λ x. x.1 ≤ length bytes.now) }
{
    // No node has more children than indices, whatever the count says.
    let most = count.min(u64::from(branch.factor()));
    let mut children = Vec::with_capacity(alloc, most as usize)?;
    let mut next = at;
    // The index may not be below this one.
    let mut low = 0;
    for _ in 0..count {
        let (child, after) = child_of(alloc, bytes, next, branch, low)?;
        low = child.index as u64 + 1;
        children.push(child)?;
        next = after;
    }
    Ok((children, next))
}

#[tactic(auto, unfolding(trie_model::specs::StoredNode::child_at))]
fn child_of(
    alloc: Global,
    bytes: &[u8],
    at: usize,
    branch: Branch,
    low: u64,
) -> Result<(Child, usize), NodeFault>
    requires { at ≤ length bytes.now }
    ensures exact { Gives (λ x. (stored_child x.0, x.1)) result (child_at limits (width_of branch) low bytes.now at) }
    ensures inside { IfOk result (λ x. x.1 ≤ length bytes.now) }
{
    let (index, at) = index_of(bytes, at, branch, low)?;
    let (rest, at) = rest_of(alloc, bytes, at, branch)?;
    let (id, at) = id_of(bytes, at)?;
    let (has_value, at) = flag_of(bytes, at)?;
    let child = Child {
        index,
        rest,
        id,
        has_value,
    };
    Ok((child, at))
}

#[tactic(auto, unfolding(trie_model::specs::StoredNode::index_at))]
fn index_of(bytes: &[u8], at: usize, branch: Branch, low: u64) -> Result<(u16, usize), NodeFault>
    requires { at ≤ length bytes.now }
    ensures exact { Gives (λ x. (x.0, x.1)) result (index_at (width_of branch) low bytes.now at) }
    ensures inside { IfOk result (λ x. x.1 ≤ length bytes.now) }
{
    let (index, next) = number_of(bytes, at)?;
    if index >= u64::from(branch.factor()) {
        return Err(NodeFault::Index(at));
    }
    if index < low {
        return Err(NodeFault::Order(at));
    }
    Ok((index as u16, next))
}

#[tactic(auto, unfolding(trie_model::specs::StoredNode::rest_at))]
fn rest_of(
    alloc: Global,
    bytes: &[u8],
    at: usize,
    branch: Branch,
) -> Result<(Key, usize), NodeFault>
    requires { at ≤ length bytes.now }
    ensures exact { Gives (λ x. (x.0, x.1)) result (rest_at limits (width_of branch) bytes.now at) }
    ensures inside { IfOk result (λ x. x.1 ≤ length bytes.now) }
{
    let (bits, at) = bit_count_of(bytes, at, branch)?;
    key_of(alloc, bytes, at, bits)
}

#[tactic(auto, unfolding(trie_model::specs::StoredNode::bit_count_at))]
fn bit_count_of(bytes: &[u8], at: usize, branch: Branch) -> Result<(u64, usize), NodeFault>
    requires { at ≤ length bytes.now }
    ensures exact { Gives (λ x. (x.0, x.1)) result (bit_count_at limits (width_of branch) bytes.now at) }
    ensures inside { IfOk result (λ x. x.1 ≤ length bytes.now) }
    ensures short { IfOk result (λ x. x.0 ≤ rest_limit limits) }
{
    let (bits, next) = number_of(bytes, at)?;
    if bits > REST_LIMIT || bits % u64::from(branch.width()) != 0 {
        return Err(NodeFault::Rest(at));
    }
    Ok((bits, next))
}

#[tactic(auto, unfolding(base_model::specs::Fields::bits_at))]
fn key_of(alloc: Global, bytes: &[u8], at: usize, bits: u64) -> Result<(Key, usize), NodeFault>
    requires place { at ≤ length bytes.now }
    requires short { bits ≤ rest_limit limits }
    ensures exact { Gives (λ x. (x.0, x.1)) result (bits_at Short Padding bits bytes.now at) }
    ensures inside { IfOk result (λ x. x.1 ≤ length bytes.now) }
{
    let (packed, next) = bytes_of(bytes, at, bits.div_ceil(8) as usize)?;
    match Key::from_parts(alloc, bits, packed)? {
        Some(key) => Ok((key, next)),
        None => Err(NodeFault::Padding(at)),
    }
}

fn id_of(bytes: &[u8], at: usize) -> Result<(Id, usize), NodeFault>
    requires { at ≤ length bytes.now }
    ensures exact { Gives (λ x. (x.0, x.1)) result (bytes_at Short 32 bytes.now at) }
    ensures inside { IfOk result (λ x. x.1 ≤ length bytes.now) }
{
    let (front, next) = bytes_of(bytes, at, 32)?;
    let mut id = [0; 32];
    id.copy_from_slice(front);
    Ok((id, next))
}

#[tactic(auto, unfolding(base_model::specs::Fields::flag_at))]
fn flag_of(bytes: &[u8], at: usize) -> Result<(bool, usize), NodeFault>
    requires { at ≤ length bytes.now }
    ensures exact { Gives (λ x. (x.0, x.1)) result (flag_at Short BadFlag bytes.now at) }
    ensures inside { IfOk result (λ x. x.1 ≤ length bytes.now) }
{
    if at >= bytes.len() {
        return Err(NodeFault::Short(at));
    }
    match bytes[at] {
        0 => Ok((false, at + 1)),
        1 => Ok((true, at + 1)),
        _ => Err(NodeFault::BadFlag(at)),
    }
}

#[tactic(auto, unfolding(base_model::specs::Fields::number_at))]
fn number_of(bytes: &[u8], at: usize) -> Result<(u64, usize), NodeFault>
    requires { at ≤ length bytes.now }
    ensures exact { Gives (λ x. (x.0, x.1)) result (number_at bad_varint bytes.now at) }
    ensures inside { IfOk result (λ x. x.1 ≤ length bytes.now) }
{
    match read_uvarint(bytes, at) {
        Ok(read) => Ok(read),
        Err(_) => Err(NodeFault::BadVarint(at)),
    }
}

/// The `count` bytes from a place on.
#[tactic(auto, unfolding(base_model::specs::Fields::bytes_at))]
fn bytes_of(bytes: &[u8], at: usize, count: usize) -> Result<(&[u8], usize), NodeFault>
    requires { at ≤ length bytes.now }
    ensures exact { Gives (λ x. (x.0.now, x.1)) result (bytes_at Short count bytes.now at) }
    ensures inside { IfOk result (λ x. x.1 ≤ length bytes.now) }
    ensures count { IfOk result (λ x. length x.0.now ≡ count) }
{
    if bytes.len() - at < count {
        return Err(NodeFault::Short(at));
    }
    let end = at + count;
    Ok((&bytes[at..end], end))
}
