ghost use Rattle.std.specs.Prelude.{◌≡◌, ◌≤◌, ◌⊎◌, ℕ, false, [], length, IfErr, OnOk};
ghost use Rattle.trie_model.specs.Maps.{Map, IsMap, limits, root as root_of};
ghost use Rattle.trie_model.specs.Strings.{strings};
ghost use Rattle.bit_keys.specs.Branch.{width_of};
ghost use Rattle.proof_model.specs.Claims.{claim_items};
ghost use Rattle.proof_model.specs.RangeLaws.{IsRangeClaim, RangeBreak};
ghost use Rattle.proof_model.specs.RangeProofs.{pairs_in, range_claim, range_proof, range_refusal, reached_range};
ghost use Rattle.proof_check.specs.CheckResults.{Tells, Costs};
ghost use Rattle.range_proof.specs.ReachedRanges.{StandsFor};

use crate::reaching::shorter;
use bit_keys::{Branch, Id, Range};
use proof_check::{Claim, RangeProof, VerifyFault, check};
use proof_model::{accepted_ranges_are_true, true_ranges_are_accepted, uncut_ranges_are_whole};
use std::alloc::Global;
use std::sync::ledger::Ledger;
use trie_items::Steps;

/// Whether a proof is accepted, where a range stands for the one that its pairs tell of.
fn check_reached<L: Ledger>(
    alloc: Global,
    branch: Branch,
    asked: &Range,
    reached: &Range,
    root: &Id,
    proof: &RangeProof,
    steps: &mut Steps<L>,
) -> Result<(), VerifyFault>
    requires claim { IsRangeClaim limits (width_of branch) proof.now }
    requires reached { StandsFor asked.now proof.now reached.now }
    ensures refusal { Tells result (range_refusal (width_of branch) asked.now root.now proof.now) }
    ensures cost { Costs result steps.old steps.new (length (strings (width_of branch) (claim_items (width_of branch) (range_claim asked.now proof.now)))) }
{
    let entries = proof.entries(alloc)?;
    let claim = Claim {
        reached,
        entries: entries.as_slice(),
        start: proof.start.as_slice(),
        end: proof.end.as_slice(),
    };
    check(alloc, branch, asked, root, &claim, steps)
}

/// Whether a proof is accepted, or the first reason why not.
fn check_range<L: Ledger>(
    alloc: Global,
    branch: Branch,
    root: &Id,
    range: &Range,
    proof: &RangeProof,
    steps: &mut Steps<L>,
) -> Result<(), VerifyFault>
    requires { IsRangeClaim limits (width_of branch) proof.now }
    ensures refusal { Tells result (range_refusal (width_of branch) range.now root.now proof.now) }
    ensures cost { Costs result steps.old steps.new (length (strings (width_of branch) (claim_items (width_of branch) (range_claim range.now proof.now)))) }
{
    match shorter(alloc, range, proof)? {
        Some(reached) => check_reached(alloc, branch, range, &reached, root, proof, steps),
        None => check_reached(alloc, branch, range, range, root, proof, steps),
    }
}

/// Whether a proof shows what a map with this root has in a range, or the first reason why it does not.
/// A proof that was decoded for the branch has such keys and nodes as are asked for. No node is hashed
/// twice, and no value is copied.
pub fn verify<L: Ledger>(
    alloc: Global,
    branch: Branch,
    root: &Id,
    range: &Range,
    proof: &RangeProof,
    steps: &mut Steps<L>,
) -> Result<(), VerifyFault>
    requires { IsRangeClaim limits (width_of branch) proof.now }
    ensures refusal { Tells result (range_refusal (width_of branch) range.now root.now proof.now) }
    ensures cost { Costs result steps.old steps.new (length (strings (width_of branch) (claim_items (width_of branch) (range_claim range.now proof.now)))) }

    // What is accepted is true up to where the pairs reach, or SHA-256 is broken.
    ensures sound { OnOk result ((m : Map) → IsMap limits m → root.now ≡ root_of (width_of branch) m → RangeBreak (width_of branch) range.now proof.now m ⊎ (proof.now.pairs ≡ pairs_in m (reached_range range.now proof.now.cut proof.now.pairs))) }
    // And in the whole range, where it is not cut or lists nothing.
    ensures whole { OnOk result ((m : Map) → IsMap limits m → root.now ≡ root_of (width_of branch) m → (proof.now.cut ≡ false) ⊎ (proof.now.pairs ≡ []) → RangeBreak (width_of branch) range.now proof.now m ⊎ (proof.now.pairs ≡ pairs_in m range.now)) }
    // What is true is accepted, however much of it is taken.
    ensures accepts { (m : Map) (n z : ℕ) → IsMap limits m → root.now ≡ root_of (width_of branch) m → 1 ≤ n → proof.now ≡ range_proof (width_of branch) m range.now n z → IfErr result (λ fault. fault ≡ VerifyFault.NoMemory) }
{
    accepted_ranges_are_true();
    uncut_ranges_are_whole();
    true_ranges_are_accepted();
    // That the bounds of a range are within the limit, and in order, is told with each of them.
    let _start = range.start();
    check_range(alloc, branch, root, range, proof, steps)
}
