ghost use Rattle.std.specs.Prelude.{◌≡◌, ◌++◌, IfOk, OnOk, OnErr, Ok};
ghost use Rattle.base_model.specs.Bytes.{Grown};
ghost use Rattle.bit_keys.specs.Branch.{width_of};
ghost use Rattle.trie_model.specs.Maps.{limits};
ghost use Rattle.proof_model.specs.ChangeLaws.{IsChangeClaim};
ghost use Rattle.proof_model.specs.ChangeProofs.{ChangeProof as ShownChanges};
ghost use Rattle.proof_model.specs.ChangeWire.{IsChangeProof, changes_form, changes_of as changes_read};
ghost use Rattle.proof_check.specs.ReaderAnswers.{Gives};

use crate::change::ChangeProof;
use crate::change_reading::changes_of;
use crate::fields::{flag_of, head_of};
use crate::path_reading::path_of;
use crate::wire_fault::{WireFault, WireKind};
use crate::writing::{write_changes, write_flag, write_head, write_path};
use bit_keys::Branch;
use mdb_base::NoMemory;
use std::alloc::Global;

// The second byte of a change proof.
const CHANGE_KIND: u8 = 2;

fn write_proof(proof: &ChangeProof, out: &mut Vec<u8>) -> Result<(), NoMemory>
    ensures ok { OnOk result (out.new.items ≡ out.old.items ++ changes_form proof.now) }
    ensures err { OnErr result (Grown out.old.items out.new.items) }
{
    write_head(CHANGE_KIND, out)?;
    write_flag(proof.cut, out)?;
    write_changes(&proof.changes, out)?;
    write_path(&proof.start, out)?;
    write_path(&proof.end, out)
}

#[tactic(auto, unfolding(proof_model::specs::ChangeWire::changes_of, proof_model::specs::Wire::all_read))]
fn proof_of(alloc: Global, bytes: &[u8], branch: Branch) -> Result<ChangeProof, WireFault>
    ensures { Gives (λ p. p) result (changes_read limits (width_of branch) bytes.now) }
{
    let at = head_of(bytes, CHANGE_KIND)?;
    let (cut, at) = flag_of(bytes, at)?;
    let (changes, at) = changes_of(alloc, bytes, at)?;
    let (start, at) = path_of(alloc, bytes, at, branch)?;
    let (end, at) = path_of(alloc, bytes, at, branch)?;
    if at != bytes.len() {
        return Err(WireKind::Trailing.at(at));
    }
    Ok(ChangeProof {
        cut,
        changes,
        start,
        end,
    })
}

impl ChangeProof {
    /// Appends the bytes of the proof.
    pub fn encode(&self, out: &mut Vec<u8>) -> Result<(), NoMemory>
        ensures ok { OnOk result (out.new.items ≡ out.old.items ++ changes_form self.now) }
        ensures err { OnErr result (out.new.items ≡ out.old.items) }
    {
        let before = out.len();
        let written = write_proof(self, out);
        if written.is_err() {
            out.truncate(before);
        }
        written
    }

    /// Reads a proof, which is all of the bytes. Want of memory is a kind of the fault.
    pub fn decode(alloc: Global, bytes: &[u8], branch: Branch) -> Result<ChangeProof, WireFault>
        // What is read is in the grammar, and spelled so.
        ensures found { IfOk result (λ p. IsChangeProof limits (width_of branch) p × (bytes.now ≡ changes_form p)) }
        // So its keys and its nodes are ones that a check asks for.
        ensures claim { IfOk result (λ p. IsChangeClaim limits (width_of branch) p) }
        // What is spelled so is read, unless memory runs out.
        ensures only { (p : ShownChanges) → IsChangeProof limits (width_of branch) p → bytes.now ≡ changes_form p → Gives (λ p. p) result (Ok p) }
        // Which field is the first one outside the grammar.
        ensures exact { Gives (λ p. p) result (changes_read limits (width_of branch) bytes.now) }
    {
        proof_of(alloc, bytes, branch)
    }
}
