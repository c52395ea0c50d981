ghost use Rattle.std.specs.Prelude.{◌≡◌, ◌++◌, length, IfOk, OnOk, OnErr, Ok};
ghost use Rattle.std.specs.List.{AllByRecursion};
ghost use Rattle.base_model.specs.Bytes.{Grown};
ghost use Rattle.bit_keys.specs.Branch.{width_of};
ghost use Rattle.trie_model.specs.Maps.{limits};
ghost use Rattle.proof_model.specs.Paths.{IsProofNode};
ghost use Rattle.proof_model.specs.Proofs.{PointProof as ShownPoint};
ghost use Rattle.proof_model.specs.Wire.{IsPoint, point_form, point_of as point_read};
ghost use Rattle.proof_check.specs.ReaderAnswers.{Gives};

use crate::fields::{copied, head_of, maybe_of};
use crate::path_reading::path_of;
use crate::point::PointProof;
use crate::sized_field::SizedField;
use crate::wire_fault::{WireFault, WireKind};
use crate::writing::{write_head, write_maybe, write_path};
use bit_keys::Branch;
use mdb_base::NoMemory;
use std::alloc::Global;

// The second byte of a point proof.
const POINT_KIND: u8 = 4;

fn write_point(point: &PointProof, out: &mut Vec<u8>) -> Result<(), NoMemory>
    ensures ok { OnOk result (out.new.items ≡ out.old.items ++ point_form point.now) }
    ensures err { OnErr result (Grown out.old.items out.new.items) }
{
    write_head(POINT_KIND, out)?;
    write_maybe(point.value.as_deref(), out)?;
    write_path(&point.path, out)
}

#[tactic(auto, unfolding(proof_model::specs::Wire::point_of, proof_model::specs::Wire::all_read))]
fn point_of(alloc: Global, bytes: &[u8], branch: Branch) -> Result<PointProof, WireFault>
    ensures { Gives (λ p. p) result (point_read limits (width_of branch) bytes.now) }
{
    let at = head_of(bytes, POINT_KIND)?;
    let (value, at) = maybe_of(bytes, at, SizedField::Value)?;
    let value = copied(alloc, value)?;
    let (path, at) = path_of(alloc, bytes, at, branch)?;
    if at != bytes.len() {
        return Err(WireKind::Trailing.at(at));
    }
    Ok(PointProof { value, path })
}

impl PointProof {
    /// Appends the bytes of the proof.
    pub fn encode(&self, out: &mut Vec<u8>) -> Result<(), NoMemory>
        ensures ok { OnOk result (out.new.items ≡ out.old.items ++ point_form self.now) }
        ensures err { OnErr result (out.new.items ≡ out.old.items) }
    {
        let before = out.len();
        let written = write_point(self, out);
        if written.is_err() {
            out.truncate(before);
        }
        written
    }

    /// Reads a proof, which is all of the bytes. Want of memory is a kind of the fault.
    pub fn decode(alloc: Global, bytes: &[u8], branch: Branch) -> Result<PointProof, WireFault>
        // What is read is in the grammar, and spelled so.
        ensures found { IfOk result (λ p. IsPoint limits (width_of branch) p × (bytes.now ≡ point_form p)) }
        // So its nodes are ones that a check asks for.
        ensures nodes { IfOk result (λ p. AllByRecursion (IsProofNode (width_of branch)) p.path) }
        // What is spelled so is read, unless memory runs out.
        ensures only { (p : ShownPoint) → IsPoint limits (width_of branch) p → bytes.now ≡ point_form p → Gives (λ p. p) result (Ok p) }
        // Which field is the first one outside the grammar.
        ensures exact { Gives (λ p. p) result (point_read limits (width_of branch) bytes.now) }
    {
        point_of(alloc, bytes, branch)
    }
}
