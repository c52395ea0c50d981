ghost use Rattle.std.specs.Prelude.{◌≡◌, ◌≤◌, true, Some, length, option_map, IfOk};
ghost use Rattle.std.specs.List.{AllByRecursion};
ghost use Rattle.std.specs.Option.{option_copied};
ghost use Rattle.trie_model.specs.Maps.{key_limit, limits};
ghost use Rattle.range_model.specs.Ranges.{IsRange, holds};
ghost use Rattle.proof_model.specs.RangeLaws.{HasKey};
ghost use Rattle.proof_model.specs.TakenEntries.{end_or};
ghost use Rattle.range_proof.specs.ReachedRanges.{StandsFor, or_asked};

use bit_keys::{NoMemory, Range};
use proof_check::RangeProof;
use std::alloc::Global;

fn copied(alloc: Global, bound: Option<&[u8]>) -> Result<Option<Vec<u8>>, NoMemory>
    ensures { IfOk result (λ b. option_map (λ b. b.items) b ≡ option_copied bound.entry) }
{
    match bound {
        Some(bytes) => Ok(Some(Vec::from_slice(alloc, bytes)?)),
        None => Ok(None),
    }
}

/// The range up to a key of it.
pub fn up_to(alloc: Global, range: &Range, last: &[u8]) -> Result<Range, NoMemory>
    requires short { length last.now ≤ key_limit }
    requires inside { holds range.now last.now ≡ true }
    ensures bounds { IfOk result (λ r. r ≡ end_or (Some last.now) range.now) }
    ensures range { IfOk result (IsRange limits) }
{
    let start = copied(alloc, range.start())?;
    let end = Vec::from_slice(alloc, last)?;
    Ok(Range::new(start, Some(end)).unwrap())
}

/// The range up to the last pair, where pairs are cut. Where that pair lies outside there is none, as the
/// pair is refused in any case.
pub fn shorter(alloc: Global, asked: &Range, proof: &RangeProof) -> Result<Option<Range>, NoMemory>
    requires { AllByRecursion (HasKey limits) proof.now.pairs }
    ensures { IfOk result (λ r. StandsFor asked.now proof.now (or_asked asked.now r)) }
{
    // That the bounds of a range are within the limit, and in order, is told with each of them.
    let _start = asked.start();
    if !proof.cut {
        return Ok(None);
    }
    let Some(last) = proof.pairs.last() else {
        return Ok(None);
    };
    if !asked.holds(&last.key) {
        return Ok(None);
    }
    Ok(Some(up_to(alloc, asked, &last.key)?))
}
