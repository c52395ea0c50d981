ghost use Rattle.std.specs.Prelude.{◌≡◌, ◌+◌, ◌≤◌, ◌++◌, IfOk, length, take, drop};
ghost use Rattle.trie_model.specs.Bits.{is_prefix};
ghost use Rattle.trie_model.specs.Maps.{Map};
ghost use Rattle.trie_model.specs.Table.{table};
ghost use Rattle.bit_keys.specs.Branch.{width_of};
ghost use Rattle.trie_items.specs.Sources.{Answers};
ghost use Rattle.proof_model.specs.Paths.{path};
ghost use Rattle.point_proof.specs.WaysDown.{key_toward, token_on_way, whole_way};

use crate::joining::joined;
use bit_keys::{Branch, Key, NoMemory};
use proof_check::ProofNode;
use std::alloc::Global;
use trie_items::{NodeSource, SourceFault};

/// Room for so many nodes is made at once for a path.
const USUAL_LENGTH: usize = 24;

/// Whether these bits stand behind the first `bits` bits of `wanted`.
fn stands_behind(alloc: Global, wanted: &Key, bits: u64, rest: &Key) -> Result<bool, NoMemory>
    requires { bits ≤ length wanted.now }
    ensures { IfOk result (λ stands. stands ≡ is_prefix rest.now (drop bits wanted.now)) }
{
    // Most children have no rest.
    if rest.bits() == 0 {
        return Ok(true);
    }
    let behind = wanted.after(alloc, bits)?;
    Ok(rest.is_prefix(&behind))
}

/// The key of the child with this rest whose slot is the first `bits` bits of `wanted`.
fn key_with_rest(alloc: Global, wanted: &Key, bits: u64, rest: &Key) -> Result<Key, NoMemory>
    requires { bits ≤ length wanted.now }
    ensures { IfOk result (λ k. k ≡ take bits wanted.now ++ rest.now) }
{
    // That the key has these bits says that their number fits.
    let _total = wanted.bits();
    if stands_behind(alloc, wanted, bits, rest)? {
        // Such a key is cut off the wanted one, which takes less time than to put it together.
        return wanted.first(alloc, bits + rest.bits());
    }
    joined(alloc, wanted.first(alloc, bits)?, rest)
}

/// The token of the slot below the node at `at` in which `wanted` lies, where it goes on there.
fn token_toward(branch: Branch, wanted: &Key, at: &Key) -> Option<u16>
    ensures { result ≡ token_on_way (width_of branch) wanted.now at.now }
{
    let bits = at.bits();
    let total = wanted.bits();
    let width = u64::from(branch.width());
    if !at.is_prefix(wanted) || total < width || total - width < bits {
        return None;
    }
    Some(wanted.token(branch, bits / width))
}

/// The key of the child with this rest in that slot.
fn next_down(
    alloc: Global,
    branch: Branch,
    wanted: &Key,
    at: &Key,
    token: Option<u16>,
    rest: Option<Key>,
) -> Result<Option<Key>, NoMemory>
    requires { token ≡ token_on_way (width_of branch) wanted.now at.now }
    ensures { IfOk result (λ k. k ≡ key_toward (width_of branch) wanted.now at.now rest) }
{
    match (token, rest) {
        (Some(_), Some(rest)) => {
            // That the key has more bits says that their number fits.
            let _total = wanted.bits();
            let bits = at.bits() + u64::from(branch.width());
            Ok(Some(key_with_rest(alloc, wanted, bits, &rest)?))
        }
        _ => Ok(None),
    }
}

/// The nodes on the way from the root node down to a key.
fn path_to<N: NodeSource>(
    alloc: Global,
    source: &mut N,
    branch: Branch,
    wanted: &Key,
) -> Result<Vec<ProofNode>, SourceFault>
    requires { N.words.width source.old ≡ width_of branch }
    ensures path { IfOk result (λ p. (m : Map) → N.words.told source.old m → p.items ≡ whole_way (width_of branch) (table (width_of branch) m) wanted.now) }
    ensures answers { Answers N.words source.old source.new result }
{
    let mut path = Vec::with_capacity(alloc, USUAL_LENGTH)?;
    let mut next = source.root_key(alloc)?;
    while let Some(at) = next {
        let token = token_toward(branch, wanted, &at);
        let Some(node) = source.shown(alloc, &at, token)? else {
            break;
        };
        next = next_down(alloc, branch, wanted, &at, token, node.rest)?;
        path.push(ProofNode {
            key: at,
            digest: node.digest,
            children: node.children,
        })?;
    }
    Ok(path)
}

/// The path of a key: the nodes on the way from the root node down to it.
pub fn path_of<N: NodeSource>(
    alloc: Global,
    source: &mut N,
    branch: Branch,
    key: &[u8],
) -> Result<Vec<ProofNode>, SourceFault>
    requires { N.words.width source.old ≡ width_of branch }
    ensures path { IfOk result (λ p. (m : Map) → N.words.told source.old m → p.items ≡ path (width_of branch) m key.now) }
    ensures answers { Answers N.words source.old source.new result }
{
    let wanted = Key::from_bytes(alloc, key)?;
    path_to(alloc, source, branch, &wanted)
}
