ghost use Rattle.std.specs.Prelude.{◌≡◌, ◌++◌, IfOk, OnOk, OnErr, Ok};
ghost use Rattle.base_model.specs.Bytes.{Grown};
ghost use Rattle.bit_keys.specs.Branch.{width_of};
ghost use Rattle.trie_model.specs.Maps.{limits};
ghost use Rattle.proof_model.specs.RangeLaws.{IsRangeClaim};
ghost use Rattle.proof_model.specs.RangeProofs.{RangeProof as ShownRange};
ghost use Rattle.proof_model.specs.RangeWire.{IsRangeProof, range_form, range_of as range_read};
ghost use Rattle.proof_check.specs.ReaderAnswers.{Gives};

use crate::fields::{flag_of, head_of};
use crate::pair_reading::pairs_of;
use crate::path_reading::path_of;
use crate::range::RangeProof;
use crate::wire_fault::{WireFault, WireKind};
use crate::writing::{write_flag, write_head, write_pairs, write_path};
use bit_keys::Branch;
use mdb_base::NoMemory;
use std::alloc::Global;

// The second byte of a range proof.
const RANGE_KIND: u8 = 1;

fn write_range(range: &RangeProof, out: &mut Vec<u8>) -> Result<(), NoMemory>
    ensures ok { OnOk result (out.new.items ≡ out.old.items ++ range_form range.now) }
    ensures err { OnErr result (Grown out.old.items out.new.items) }
{
    write_head(RANGE_KIND, out)?;
    write_flag(range.cut, out)?;
    write_pairs(&range.pairs, out)?;
    write_path(&range.start, out)?;
    write_path(&range.end, out)
}

#[tactic(auto, unfolding(proof_model::specs::RangeWire::range_of, proof_model::specs::Wire::all_read))]
fn range_of(alloc: Global, bytes: &[u8], branch: Branch) -> Result<RangeProof, WireFault>
    ensures { Gives (λ p. p) result (range_read limits (width_of branch) bytes.now) }
{
    let at = head_of(bytes, RANGE_KIND)?;
    let (cut, at) = flag_of(bytes, at)?;
    let (pairs, at) = pairs_of(alloc, bytes, at)?;
    let (start, at) = path_of(alloc, bytes, at, branch)?;
    let (end, at) = path_of(alloc, bytes, at, branch)?;
    if at != bytes.len() {
        return Err(WireKind::Trailing.at(at));
    }
    Ok(RangeProof {
        cut,
        pairs,
        start,
        end,
    })
}

impl RangeProof {
    /// Appends the bytes of the proof.
    pub fn encode(&self, out: &mut Vec<u8>) -> Result<(), NoMemory>
        ensures ok { OnOk result (out.new.items ≡ out.old.items ++ range_form self.now) }
        ensures err { OnErr result (out.new.items ≡ out.old.items) }
    {
        let before = out.len();
        let written = write_range(self, out);
        if written.is_err() {
            out.truncate(before);
        }
        written
    }

    /// Reads a proof, which is all of the bytes. Want of memory is a kind of the fault.
    pub fn decode(alloc: Global, bytes: &[u8], branch: Branch) -> Result<RangeProof, WireFault>
        // What is read is in the grammar, and spelled so.
        ensures found { IfOk result (λ p. IsRangeProof limits (width_of branch) p × (bytes.now ≡ range_form p)) }
        // So its keys and its nodes are ones that a check asks for.
        ensures claim { IfOk result (λ p. IsRangeClaim limits (width_of branch) p) }
        // What is spelled so is read, unless memory runs out.
        ensures only { (p : ShownRange) → IsRangeProof limits (width_of branch) p → bytes.now ≡ range_form p → Gives (λ p. p) result (Ok p) }
        // Which field is the first one outside the grammar.
        ensures exact { Gives (λ p. p) result (range_read limits (width_of branch) bytes.now) }
    {
        range_of(alloc, bytes, branch)
    }
}
