// The pairs of a proof, read field by field from the left.
ghost use Rattle.std.specs.Prelude.{◌≡◌, ◌≤◌, length, IfOk};
ghost use Rattle.trie_model.specs.Maps.{limits};
ghost use Rattle.proof_model.specs.Wire.{listed_at};
ghost use Rattle.proof_model.specs.RangeWire.{pair_at, pairs_at};
ghost use Rattle.proof_check.specs.ReaderAnswers.{Gives};

use crate::fields::{number_of, sized_of};
use crate::range::Pair;
use crate::sized_field::SizedField;
use crate::wire_fault::WireFault;
use std::alloc::Global;

/// The number of pairs, and the pairs.
#[tactic(auto, unfolding(proof_model::specs::Wire::counted_at))]
pub(crate) fn pairs_of(
    alloc: Global,
    bytes: &[u8],
    at: usize,
) -> Result<(Vec<Pair>, usize), WireFault>
    requires { at ≤ length bytes.now }
    ensures exact { Gives (λ x. (x.0.items, x.1)) result (pairs_at limits bytes.now at) }
    ensures inside { IfOk result (λ x. x.1 ≤ length bytes.now) }
{
    let (count, at) = number_of(bytes, at)?;
    listed_of(alloc, bytes, at, count)
}

// The count may be any number, so no room is made for so many.
fn listed_of(
    alloc: Global,
    bytes: &[u8],
    at: usize,
    count: u64,
) -> Result<(Vec<Pair>, usize), WireFault>
    requires { at ≤ length bytes.now }
    ensures exact { Gives (λ x. (x.0.items, x.1)) result (listed_at (pair_at limits) count bytes.now at) }
    ensures inside { IfOk result (λ x. x.1 ≤ length bytes.now) }
{
    let mut pairs = Vec::new(alloc);
    let mut next = at;
    for _ in 0..count {
        let (pair, after) = pair_of(alloc, bytes, next)?;
        pairs.push(pair)?;
        next = after;
    }
    Ok((pairs, next))
}

#[tactic(auto, unfolding(proof_model::specs::RangeWire::pair_at))]
fn pair_of(alloc: Global, bytes: &[u8], at: usize) -> Result<(Pair, usize), WireFault>
    requires { at ≤ length bytes.now }
    ensures exact { Gives (λ x. (x.0, x.1)) result (pair_at limits bytes.now at) }
    ensures inside { IfOk result (λ x. x.1 ≤ length bytes.now) }
{
    let (key, at) = sized_of(bytes, at, SizedField::Key)?;
    let (value, at) = sized_of(bytes, at, SizedField::Value)?;
    let pair = Pair {
        key: Vec::from_slice(alloc, key)?,
        value: Vec::from_slice(alloc, value)?,
    };
    Ok((pair, at))
}
