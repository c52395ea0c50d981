// Lines that tell of the proof of a range.
ghost use Rattle.std.specs.Prelude.{◌≡◌, ◌<◌, Ok, IfOk, IfErr, length};
ghost use Rattle.trie_model.specs.Maps.{limits};
ghost use Rattle.range_model.specs.Ranges.{IsRange};
ghost use Rattle.proof_model.specs.CheckedBytes.{range_checked};
ghost use Rattle.proof_model.specs.RangeLaws.{IsRangeClaim};
ghost use Rattle.proof_model.specs.RangeProofs.{RangeProof as ShownRange, range_refusal};
ghost use Rattle.bit_keys.specs.Branch.{width_of};
ghost use Rattle.proof_check.specs.CheckResults.{Tells};
ghost use Rattle.verify_run.specs.Checks.{IsRefused};

use crate::proof_fault::{ProofFault, fault_of_check, fault_of_wire};
use bit_keys::{Branch, Id, Range};
use proof_check::{RangeProof, VerifyFault};
use range_proof::verify;
use std::alloc::Global;
use std::marker::Brand;
use std::sync::ledger::{Blank, Ledger};
use trie_items::Steps;

// How many pairs a proof shows.
fn pairs_of(proof: &RangeProof) -> u64
    ensures { result ≡ length proof.now.pairs }
{
    proof.pairs.len() as u64
}

// Checks a proof, with a count of the nodes that it hashes.
fn check<L: Ledger>(
    alloc: Global,
    branch: Branch,
    root: &Id,
    range: &Range,
    proof: &RangeProof,
    blank: Blank,
) -> Result<(), VerifyFault>
    requires name { blank.name ≡ L.name }
    requires parts { blank.parts ≡ L.parts }
    requires some { 0 < blank.parts }
    requires range { IsRange limits range.now }
    requires claim { IsRangeClaim limits (width_of branch) proof.now }
    ensures { Tells result (range_refusal (width_of branch) range.now root.now proof.now) }
{
    let mut steps = Steps::<L>::new(blank);
    verify(alloc, branch, root, range, proof, &mut steps)
}

/// How many pairs the bytes of the proof of a range show.
pub(crate) fn pairs_in(
    alloc: Global,
    branch: Branch,
    root: &Id,
    range: &Range,
    bytes: &[u8],
) -> Result<u64, ProofFault>
    requires { IsRange limits range.now }
    ensures ok { IfOk result (λ n. (p : ShownRange) × (range_checked limits (width_of branch) root.now range.now bytes.now ≡ Ok p) × (n ≡ length p.pairs)) }
    ensures err { IfErr result (IsRefused (range_checked limits (width_of branch) root.now range.now bytes.now)) }
{
    let proof = match RangeProof::decode(alloc, bytes, branch) {
        Ok(proof) => proof,
        Err(fault) => return Err(fault_of_wire(fault)),
    };
    match check::<Brand>(alloc, branch, root, range, &proof, Blank::new(1)) {
        Ok(()) => Ok(pairs_of(&proof)),
        Err(fault) => Err(fault_of_check(fault)),
    }
}
