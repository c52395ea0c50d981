ghost use Rattle.std.specs.Prelude.{◌≡◌, ◌<◌, ◌^◌, length, None};
ghost use Rattle.proof_model.specs.Refusals.{extends as extends_key, first_break as first_break_of, first_place, disagree as disagree_of, disagrees_with, same_digest as same_digest_of, same_children as same_children_of, path_refusal, or_else, PathsDiffer};
ghost use Rattle.trie_items.specs.Children.{children_of};
ghost use Rattle.proof_check.specs.CheckResults.{Tells};

use crate::proof_node::ProofNode;
use crate::verify_fault::VerifyFault;
use node_codec::Digest;
use trie_items::ChildId;

/// Whether the key of the second node strictly extends that of the first.
fn extends(first: &ProofNode, second: &ProofNode) -> bool
    ensures { result ≡ extends_key first.now second.now }
{
    first.key.is_prefix(&second.key) && first.key.bits() < second.key.bits()
}

/// The first node that does not strictly extend the one before it, where the first node has this place.
fn first_break(path: &[ProofNode], first: usize) -> Option<usize>
    requires { first < 2 ^ 62 }
    ensures { result ≡ first_break_of extends_key first path.now }
{
    for i in 1..path.len() {
        if !extends(&path[i - 1], &path[i]) {
            return Some(first + i);
        }
    }
    None
}

fn same_digest(a: &Option<Digest>, b: &Option<Digest>) -> bool
    ensures { result ≡ same_digest_of a.now b.now }
{
    match (a, b) {
        (Some(a), Some(b)) => a.bytes() == b.bytes(),
        (None, None) => true,
        _ => false,
    }
}

fn same_children(a: &[ChildId], b: &[ChildId]) -> bool
    ensures { result ≡ same_children_of (children_of a.now) (children_of b.now) }
{
    a == b
}

/// Whether two nodes have one key, and not one content.
fn disagree(a: &ProofNode, b: &ProofNode) -> bool
    ensures { result ≡ disagree_of a.now b.now }
{
    a.key == b.key
        && !(same_digest(&a.digest, &b.digest)
            && same_children(a.children.as_slice(), b.children.as_slice()))
}

/// Whether a node disagrees with one of a path in its order, where one at most has a key as long as its own.
fn disagrees(path: &[ProofNode], node: &ProofNode) -> bool
    requires { first_break_of extends_key 0 path.now ≡ None }
    ensures { result ≡ disagrees_with path.now node.now }
{
    let bits = node.key.bits();
    match path.binary_search_by(|other| other.key.bits().cmp(&bits)) {
        Ok(place) => disagree(&path[place], node),
        Err(_) => false,
    }
}

/// The first node of the end path that disagrees with one of the start path.
fn first_difference(start: &[ProofNode], end: &[ProofNode]) -> Option<usize>
    requires { first_break_of extends_key 0 start.now ≡ None }
    ensures { result ≡ first_place (disagrees_with start.now) (length start.now) end.now }
{
    for (i, node) in end.iter().enumerate() {
        if disagrees(start, node) {
            return Some(start.len() + i);
        }
    }
    None
}

fn check_shared(start: &[ProofNode], end: &[ProofNode]) -> Result<(), VerifyFault>
    requires { first_break_of extends_key 0 start.now ≡ None }
    ensures { Tells result (or_else PathsDiffer (first_place (disagrees_with start.now) (length start.now) end.now) None) }
{
    match first_difference(start, end) {
        Some(place) => Err(VerifyFault::PathsDiffer(place)),
        None => Ok(()),
    }
}

/// Whether the nodes of each path strictly extend each other, and nodes of both with one key are the same.
pub(crate) fn check_paths(start: &[ProofNode], end: &[ProofNode]) -> Result<(), VerifyFault>
    ensures { Tells result (path_refusal start.now end.now None) }
{
    match first_break(start, 0).or(first_break(end, start.len())) {
        Some(place) => Err(VerifyFault::PathOrder(place)),
        None => check_shared(start, end),
    }
}
