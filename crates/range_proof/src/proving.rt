ghost use Rattle.std.specs.Prelude.{◌≡◌, ◌≤◌, IfOk};
ghost use Rattle.std.specs.Option.{option_copied};
ghost use Rattle.trie_model.specs.Maps.{Map};
ghost use Rattle.bit_keys.specs.Branch.{width_of};
ghost use Rattle.trie_items.specs.Sources.{Answers};
ghost use Rattle.proof_model.specs.RangeProofs.{range_proof, reached_range};
ghost use Rattle.proof_model.specs.TrueClaims.{path_to};

use crate::taking::take;
use bit_keys::{Branch, Range};
use point_proof::path_of;
use proof_check::{Pair, ProofNode, RangeProof};
use std::alloc::Global;
use trie_items::{NodeSource, SourceFault};

/// The end of the range that pairs tell of.
fn reached_end<'a>(range: &'a Range, cut: bool, pairs: &'a [Pair]) -> Option<&'a [u8]>
    ensures { option_copied result ≡ (reached_range range.now cut pairs.now).end }
{
    if !cut {
        return range.end();
    }
    match pairs.last() {
        Some(last) => Some(&last.key),
        None => range.end(),
    }
}

/// The path of a bound, where there is one.
pub fn path_of_bound<N: NodeSource>(
    alloc: Global,
    source: &mut N,
    branch: Branch,
    bound: Option<&[u8]>,
) -> Result<Vec<ProofNode>, SourceFault>
    requires { N.words.width source.old ≡ width_of branch }
    ensures path { IfOk result (λ p. (m : Map) → N.words.told source.old m → p.items ≡ path_to (width_of branch) m (option_copied bound.entry)) }
    ensures answers { Answers N.words source.old source.new result }
{
    match bound {
        Some(key) => path_of(alloc, source, branch, key),
        None => Ok(Vec::new(alloc)),
    }
}

/// The pairs of a range, as many as are allowed and one at least, and the paths of both ends of the range
/// that they tell of.
pub fn prove<N: NodeSource>(
    alloc: Global,
    source: &mut N,
    branch: Branch,
    range: &Range,
    pairs: u32,
    bytes: u32,
) -> Result<RangeProof, SourceFault>
    requires width { N.words.width source.old ≡ width_of branch }
    requires some { 1 ≤ pairs }
    ensures proof { IfOk result (λ p. (m : Map) → N.words.told source.old m → p ≡ range_proof (width_of branch) m range.now pairs bytes) }
    ensures answers { Answers N.words source.old source.new result }
{
    let (listed, cut) = take(alloc, source, range, pairs, bytes)?;
    let start = path_of_bound(alloc, source, branch, range.start())?;
    let end = path_of_bound(alloc, source, branch, reached_end(range, cut, &listed))?;
    Ok(RangeProof {
        cut,
        pairs: listed,
        start,
        end,
    })
}
