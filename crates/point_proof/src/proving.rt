ghost use Rattle.std.specs.Prelude.{◌≡◌, IfOk};
ghost use Rattle.trie_model.specs.Maps.{Map};
ghost use Rattle.bit_keys.specs.Branch.{width_of};
ghost use Rattle.trie_items.specs.Sources.{Answers};
ghost use Rattle.proof_model.specs.Proofs.{point_proof};

use crate::walking::path_of;
use bit_keys::Branch;
use proof_check::PointProof;
use std::alloc::Global;
use trie_items::{NodeSource, SourceFault};

/// The value of a key, or that it has none, and the nodes on the way down to it.
pub fn prove<N: NodeSource>(
    alloc: Global,
    source: &mut N,
    branch: Branch,
    key: &[u8],
) -> Result<PointProof, SourceFault>
    requires { N.words.width source.old ≡ width_of branch }
    ensures proof { IfOk result (λ p. (m : Map) → N.words.told source.old m → p ≡ point_proof (width_of branch) m key.now) }
    ensures answers { Answers N.words source.old source.new result }
{
    let path = path_of(alloc, source, branch, key)?;
    let value = source.value(alloc, key)?;
    Ok(PointProof { value, path })
}
