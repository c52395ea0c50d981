ghost use Rattle.std.specs.Prelude.{◌≡◌, ◌≤◌, ◌⊎◌, map, length, option_map, IfOk, IfErr, OnOk};
ghost use Rattle.std.specs.List.{AllByRecursion};
ghost use Rattle.std.specs.FinMap as map_of;
ghost use Rattle.trie_model.specs.Maps.{Map, IsMap, key_limit, limits, root as root_of, map_strings};
ghost use Rattle.trie_model.specs.Strings.{Break, strings};
ghost use Rattle.range_model.specs.Ranges.{only as only_key};
ghost use Rattle.bit_keys.specs.Branch.{width_of};
ghost use Rattle.proof_model.specs.Paths.{IsProofNode};
ghost use Rattle.proof_model.specs.Proofs.{point_proof};
ghost use Rattle.proof_model.specs.Claims.{pair_of as pairs_of, point_claim, claim_items, claim_strings};
ghost use Rattle.proof_model.specs.Refusals.{point_refusal};
ghost use Rattle.proof_check.specs.Claims.{pair_of};
ghost use Rattle.proof_check.specs.CheckResults.{Tells, Costs};

use bit_keys::{Branch, Id, NoMemory, Range};
use proof_check::{Claim, Entry, PointProof, VerifyFault, check};
use proof_model::{accepted_points_are_true, true_points_are_accepted};
use std::alloc::Global;
use std::sync::ledger::Ledger;
use trie_items::Steps;

/// The range of one key.
fn only(alloc: Global, key: &[u8]) -> Result<Range, NoMemory>
    requires { length key.now ≤ key_limit }
    ensures { IfOk result (λ r. r ≡ only_key key.now) }
{
    let start = Vec::from_slice(alloc, key)?;
    let end = Vec::from_slice(alloc, key)?;
    Ok(Range::new(Some(start), Some(end)).unwrap())
}

/// The value at a key as entries.
fn entries_of<'a>(
    alloc: Global,
    key: &'a [u8],
    value: &'a Option<Vec<u8>>,
) -> Result<Vec<Entry<'a>>, NoMemory>
    ensures { IfOk result (λ es. map pair_of es.items ≡ pairs_of key.now (option_map (λ v. v.items) value.now)) }
{
    let mut entries = Vec::new(alloc);
    if let Some(value) = value {
        entries.push(Entry {
            key,
            value: value.as_slice(),
        })?;
    }
    Ok(entries)
}

/// Whether a proof is accepted, or the first reason why not.
fn check_point<L: Ledger>(
    alloc: Global,
    branch: Branch,
    root: &Id,
    key: &[u8],
    proof: &PointProof,
    steps: &mut Steps<L>,
) -> Result<(), VerifyFault>
    requires key { length key.now ≤ key_limit }
    requires nodes { AllByRecursion (IsProofNode (width_of branch)) proof.now.path }
    ensures refusal { Tells result (point_refusal (width_of branch) key.now root.now proof.now) }
    ensures cost { Costs result steps.old steps.new (length (strings (width_of branch) (claim_items (width_of branch) (point_claim key.now proof.now)))) }
{
    let range = only(alloc, key)?;
    let entries = entries_of(alloc, key, &proof.value)?;
    let claim = Claim {
        reached: &range,
        entries: entries.as_slice(),
        start: proof.path.as_slice(),
        end: &[],
    };
    check(alloc, branch, &range, root, &claim, steps)
}

/// Whether a proof shows what a map with this root has at a key, or the first reason why it does not.
/// A proof that was decoded for the branch has such nodes as are asked for. No node is hashed twice.
pub fn verify<L: Ledger>(
    alloc: Global,
    branch: Branch,
    root: &Id,
    key: &[u8],
    proof: &PointProof,
    steps: &mut Steps<L>,
) -> Result<(), VerifyFault>
    requires key { length key.now ≤ key_limit }
    requires nodes { AllByRecursion (IsProofNode (width_of branch)) proof.now.path }
    ensures refusal { Tells result (point_refusal (width_of branch) key.now root.now proof.now) }
    ensures cost { Costs result steps.old steps.new (length (strings (width_of branch) (claim_items (width_of branch) (point_claim key.now proof.now)))) }

    // What is accepted is true, or SHA-256 is broken, and what is true is accepted.
    ensures sound { OnOk result ((m : Map) → IsMap limits m → root.now ≡ root_of (width_of branch) m → Break (claim_strings (width_of branch) (point_claim key.now proof.now)) (map_strings (width_of branch) m) ⊎ (map_of.get m key.now ≡ proof.now.value)) }
    ensures accepts { (m : Map) → IsMap limits m → root.now ≡ root_of (width_of branch) m → proof.now ≡ point_proof (width_of branch) m key.now → IfErr result (λ fault. fault ≡ VerifyFault.NoMemory) }
{
    accepted_points_are_true();
    true_points_are_accepted();
    check_point(alloc, branch, root, key, proof, steps)
}
