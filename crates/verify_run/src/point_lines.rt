// Lines that tell of the proof of a key.
ghost use Rattle.std.specs.Prelude.{◌≡◌, ◌≤◌, ◌<◌, Ok, IfOk, IfErr, length};
ghost use Rattle.std.specs.List.{AllByRecursion};
ghost use Rattle.trie_model.specs.Maps.{key_limit, limits};
ghost use Rattle.proof_model.specs.CheckedBytes.{point_checked};
ghost use Rattle.proof_model.specs.Paths.{IsProofNode};
ghost use Rattle.proof_model.specs.Proofs.{PointProof as ShownPoint};
ghost use Rattle.proof_model.specs.Refusals.{point_refusal};
ghost use Rattle.run_model.specs.Verify.{pairs_shown};
ghost use Rattle.bit_keys.specs.Branch.{width_of};
ghost use Rattle.proof_check.specs.CheckResults.{Tells};
ghost use Rattle.verify_run.specs.Checks.{IsRefused};

use crate::proof_fault::{ProofFault, fault_of_check, fault_of_wire};
use bit_keys::{Branch, Id};
use point_proof::verify;
use proof_check::{PointProof, VerifyFault};
use std::alloc::Global;
use std::marker::Brand;
use std::sync::ledger::{Blank, Ledger};
use trie_items::Steps;

// How many pairs a proof shows.
fn pairs_of(proof: &PointProof) -> u64
    ensures { result ≡ pairs_shown proof.now.value }
{
    match proof.value {
        Some(_) => 1,
        None => 0,
    }
}

// Checks a proof, with a count of the nodes that it hashes.
fn check<L: Ledger>(
    alloc: Global,
    branch: Branch,
    root: &Id,
    key: &[u8],
    proof: &PointProof,
    blank: Blank,
) -> Result<(), VerifyFault>
    requires name { blank.name ≡ L.name }
    requires parts { blank.parts ≡ L.parts }
    requires some { 0 < blank.parts }
    requires short { length key.now ≤ key_limit }
    requires nodes { AllByRecursion (IsProofNode (width_of branch)) proof.now.path }
    ensures { Tells result (point_refusal (width_of branch) key.now root.now proof.now) }
{
    let mut steps = Steps::<L>::new(blank);
    verify(alloc, branch, root, key, proof, &mut steps)
}

/// How many pairs the bytes of the proof of a key show.
pub(crate) fn pairs_at(
    alloc: Global,
    branch: Branch,
    root: &Id,
    key: &[u8],
    bytes: &[u8],
) -> Result<u64, ProofFault>
    requires { length key.now ≤ key_limit }
    ensures ok { IfOk result (λ n. (p : ShownPoint) × (point_checked limits (width_of branch) root.now key.now bytes.now ≡ Ok p) × (n ≡ pairs_shown p.value)) }
    ensures err { IfErr result (IsRefused (point_checked limits (width_of branch) root.now key.now bytes.now)) }
{
    let proof = match PointProof::decode(alloc, bytes, branch) {
        Ok(proof) => proof,
        Err(fault) => return Err(fault_of_wire(fault)),
    };
    match check::<Brand>(alloc, branch, root, key, &proof, Blank::new(1)) {
        Ok(()) => Ok(pairs_of(&proof)),
        Err(fault) => Err(fault_of_check(fault)),
    }
}
