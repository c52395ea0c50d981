ghost use Rattle.std.specs.Prelude.{◌≡◌, ◌⊎◌, ◌≤◌, ℕ, true, length, None, IfErr, IfOk, OnOk};
ghost use Rattle.std.specs.List.{AllByRecursion};
ghost use Rattle.trie_model.specs.Maps.{Map, IsMap, limits, root as root_of};
ghost use Rattle.trie_model.specs.Strings.{strings};
ghost use Rattle.range_model.specs.Ranges.{IsRange, holds};
ghost use Rattle.batch_model.specs.Batch.{AreRising, after_batch};
ghost use Rattle.bit_keys.specs.Branch.{width_of};
ghost use Rattle.trie_items.specs.Sources.{Answers};
ghost use Rattle.proof_model.specs.Claims.{claim_items};
ghost use Rattle.proof_model.specs.ChangeLaws.{IsChangeClaim, ChangeBreak};
ghost use Rattle.proof_model.specs.ChangeProofs.{changes_reach, change_proof, change_claim, change_refusal};
ghost use Rattle.proof_model.specs.Paths.{IsProofNode};
ghost use Rattle.proof_model.specs.RangeProofs.{pairs_in};
ghost use Rattle.proof_model.specs.Refusals.{path_refusal};
ghost use Rattle.proof_check.specs.CheckResults.{Tells, Costs};
ghost use Rattle.change_proof.specs.CheckAnswers.{TellsOr, TellsEarly, early_refusal, late_refusal, reached_claim, source_answer};
ghost use Rattle.range_proof.specs.ReachedRanges.{or_asked};

use crate::laying::{first_idle, lay};
use crate::local::pairs_of;
use bit_keys::{Branch, Id, NoMemory, Range};
use proof_check::{ChangeProof, Claim, VerifyFault, check, check_listed};
use proof_model::{accepted_changes_are_true, true_changes_are_accepted};
use range_proof::up_to;
use std::alloc::Global;
use std::sync::ledger::Ledger;
use trie_items::{NodeSource, Steps};

/// The range up to the last change, where changes are cut.
fn shorter(alloc: Global, asked: &Range, proof: &ChangeProof) -> Result<Option<Range>, NoMemory>
    requires range { IsRange limits asked.now }
    requires claim { AllByRecursion (λ c. length c.key ≤ 256) proof.now.changes }
    requires inside { AllByRecursion (λ c. holds asked.now c.key ≡ true) proof.now.changes }
    ensures reach { IfOk result (λ r. or_asked asked.now r ≡ changes_reach asked.now proof.now.cut proof.now.changes) }
    ensures range { IfOk result (λ r. IsRange limits (or_asked asked.now r)) }
{
    if !proof.cut {
        return Ok(None);
    }
    let Some(last) = proof.changes.last() else {
        return Ok(None);
    };
    Ok(Some(up_to(alloc, asked, &last.key)?))
}

/// Whether a proof that is not refused early is accepted, for the range that its changes tell of.
fn check_local<N: NodeSource, L: Ledger>(
    alloc: Global,
    branch: Branch,
    root: &Id,
    reached: &Range,
    local: &mut N,
    proof: &ChangeProof,
    steps: &mut Steps<L>,
) -> Result<(), VerifyFault>
    requires range { IsRange limits reached.now }
    requires rising { AreRising None proof.now.changes }
    requires inside { AllByRecursion (λ c. holds reached.now c.key ≡ true) proof.now.changes }
    requires start { AllByRecursion (IsProofNode (width_of branch)) proof.now.start }
    requires end { AllByRecursion (IsProofNode (width_of branch)) proof.now.end }
    requires paths { path_refusal proof.now.start proof.now.end None ≡ None }
    ensures refusal { (m : Map) → N.words.told local.old m → TellsOr result (late_refusal (width_of branch) reached.now m root.now proof.now) }
    ensures late { TellsEarly result None }
    ensures cost { (m : Map) → N.words.told local.old m → Costs result steps.old steps.new (length (strings (width_of branch) (claim_items (width_of branch) (reached_claim reached.now m proof.now)))) }
    ensures source { Answers N.words local.old local.new (source_answer result) }
{
    let pairs = pairs_of(alloc, local, reached)?;
    if let Some(place) = first_idle(&pairs, &proof.changes) {
        return Err(VerifyFault::Idle(place));
    }
    let entries = lay(alloc, &pairs, &proof.changes)?;
    let claim = Claim {
        reached,
        entries: entries.as_slice(),
        start: proof.start.as_slice(),
        end: proof.end.as_slice(),
    };
    check(alloc, branch, reached, root, &claim, steps)
}

/// Whether a proof is refused whatever the local map is.
fn check_early(alloc: Global, asked: &Range, proof: &ChangeProof) -> Result<(), VerifyFault>
    ensures { Tells result (early_refusal asked.now proof.now) }
{
    let entries = proof.entries(alloc)?;
    check_listed(
        asked,
        entries.as_slice(),
        proof.start.as_slice(),
        proof.end.as_slice(),
    )
}

/// Whether a proof is accepted, or the first reason why not.
fn check_changes<N: NodeSource, L: Ledger>(
    alloc: Global,
    branch: Branch,
    root: &Id,
    range: &Range,
    local: &mut N,
    proof: &ChangeProof,
    steps: &mut Steps<L>,
) -> Result<(), VerifyFault>
    requires range { IsRange limits range.now }
    requires claim { IsChangeClaim limits (width_of branch) proof.now }
    ensures refusal { (m : Map) → N.words.told local.old m → TellsOr result (change_refusal (width_of branch) range.now m root.now proof.now) }
    ensures early { TellsEarly result (early_refusal range.now proof.now) }
    ensures cost { (m : Map) → N.words.told local.old m → Costs result steps.old steps.new (length (strings (width_of branch) (claim_items (width_of branch) (change_claim range.now m proof.now)))) }
    ensures source { Answers N.words local.old local.new (source_answer result) }
{
    check_early(alloc, range, proof)?;
    match shorter(alloc, range, proof)? {
        Some(reached) => check_local(alloc, branch, root, &reached, local, proof, steps),
        None => check_local(alloc, branch, root, range, local, proof, steps),
    }
}

/// Whether the changes of a proof lead the local map to a map with this root, in the range that they tell
/// of, or the first reason why they do not. The local map is that of the source, which is asked for its
/// pairs up to there, one after another, once the proof is not refused in any case. A proof that was
/// decoded for the branch has such keys and nodes as are asked for. No node is hashed twice, and no value is
/// copied that the source gave.
pub fn verify<N: NodeSource, L: Ledger>(
    alloc: Global,
    branch: Branch,
    root: &Id,
    range: &Range,
    local: &mut N,
    proof: &ChangeProof,
    steps: &mut Steps<L>,
) -> Result<(), VerifyFault>
    requires { IsChangeClaim limits (width_of branch) proof.now }
    // Where the source tells its map, the answer is the reason, unless the source fails or memory runs out.
    ensures refusal { (m : Map) → N.words.told local.old m → TellsOr result (change_refusal (width_of branch) range.now m root.now proof.now) }
    // What is refused whatever the local map is, is refused so whatever the source answers.
    ensures early { TellsEarly result (early_refusal range.now proof.now) }
    ensures cost { (m : Map) → N.words.told local.old m → Costs result steps.old steps.new (length (strings (width_of branch) (claim_items (width_of branch) (change_claim range.now m proof.now)))) }
    // It fails only where the source failed, and leaves the source its map.
    ensures source { Answers N.words local.old local.new (source_answer result) }

    // What is accepted is true up to where the changes reach, or SHA-256 is broken.
    ensures sound { OnOk result ((l m : Map) → N.words.told local.old l → IsMap limits l → IsMap limits m → root.now ≡ root_of (width_of branch) m → ChangeBreak (width_of branch) range.now l proof.now m ⊎ (pairs_in (after_batch l proof.now.changes) (changes_reach range.now proof.now.cut proof.now.changes) ≡ pairs_in m (changes_reach range.now proof.now.cut proof.now.changes))) }
    // What is true is accepted, however much of it is taken.
    ensures accepts { (l m : Map) (n z : ℕ) → N.words.told local.old l → IsMap limits l → IsMap limits m → root.now ≡ root_of (width_of branch) m → 1 ≤ n → proof.now ≡ change_proof (width_of branch) l m range.now n z → IfErr result (λ fault. (fault ≡ VerifyFault.NoMemory) ⊎ (fault ≡ VerifyFault.Failed)) }
{
    accepted_changes_are_true();
    true_changes_are_accepted();
    // That the bounds of a range are within the limit, and in order, is told with each of them.
    let _start = range.start();
    check_changes(alloc, branch, root, range, local, proof, steps)
}
